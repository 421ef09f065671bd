//! The names of a line's fields.
ghost use Rattle.std.specs.Prelude.{◌≡◌};
ghost use Rattle.inst_json.specs.Name.{text_of};

/// A field of a line, by its name.
#[derive(Clone, Copy, Debug, PartialEq, Eq)]
pub enum Name {
    Cmd,
    Who,
    At,
    Reference,
    Id,
    To,
    From,
    Cents,
    Stamp,
    Reason,
    Max,
    Skip,
    Count,
    Step,
    Place,
}

impl Name {
    /// Returns the name as it is in a line.
    pub fn as_str(self) -> &'static str
        ensures { result.now ≡ text_of self }
    {
        match self {
            Name::Cmd => "cmd",
            Name::Who => "who",
            Name::At => "at",
            Name::Reference => "ref",
            Name::Id => "id",
            Name::To => "to",
            Name::From => "from",
            Name::Cents => "cents",
            Name::Stamp => "stamp",
            Name::Reason => "reason",
            Name::Max => "max",
            Name::Skip => "skip",
            Name::Count => "count",
            Name::Step => "step",
            Name::Place => "place",
        }
    }
}
