//! The digest of a mark.
ghost use Rattle.std.specs.Prelude.{◌≡◌, ◌≢◌, length, MatchOption};
ghost use Rattle.std.specs.List.{list_all};
ghost use Rattle.inst_chain.specs.Chain.{is_digest, is_digest_character};

/// The number of characters of a digest.
pub const DIGEST_LEN: usize = 64;

/// The digest of a mark: a SHA-256 value (FIPS 180-4) as 64 lower-case hexadecimal digits.
#[derive(Clone, Copy, Debug, PartialEq, Eq)]
pub struct Digest {
    /// The digits in ASCII.
    pub text: [u8; DIGEST_LEN],
}

impl Digest {
    /// Returns the digest with this text, or `None` unless it has 64 bytes. Other characters than
    /// digits aren't refused; no mark has such a digest.
    pub fn of(text: &str) -> Option<Digest>
        ensures { MatchOption result (length text.now ≢ 64) (λ digest. digest.text ≡ text.now) }
    {
        if text.len() != DIGEST_LEN {
            return None;
        }
        let mut digest = Digest {
            text: [b'0'; DIGEST_LEN],
        };
        digest.text.copy_from_slice(text.as_bytes());
        Some(digest)
    }

    /// Returns `true` if the text is 64 lower-case hexadecimal digits, as in each mark.
    pub fn is_hexadecimal(&self) -> bool
        ensures { result ≡ is_digest self.now.text }
    {
        is_digest(&self.text)
    }
}

/// Returns `true` if the text is 64 lower-case hexadecimal digits, as in each mark.
pub fn is_digest(text: &[u8]) -> bool
    ensures { result ≡ is_digest text.now }
{
    text.len() == DIGEST_LEN && are_digest_characters(text)
}

fn are_digest_characters(text: &[u8]) -> bool
    ensures { result ≡ list_all is_digest_character text.now }
{
    text.iter().all(|&byte| is_digest_character(byte))
}

fn is_digest_character(byte: u8) -> bool
    ensures { result ≡ is_digest_character byte }
{
    matches!(byte, b'0'..=b'9' | b'a'..=b'f')
}
