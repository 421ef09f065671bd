//! The fields of a scanned line.
ghost use Rattle.std.specs.Prelude.{◌≡◌, set};
ghost use Rattle.inst_json.specs.inner.Names.{name_index};
ghost use Rattle.inst_json.specs.LineFields.{fields_in_order, no_fields};

/// The value of a line under one name.
#[derive(Clone, Copy, Drop)]
pub enum Field<'a> {
    Missing,
    /// A text, with its escapes resolved.
    Text(&'a str),
    /// A whole number of 64 bits.
    Whole(u64),
    /// Anything else: neither a text nor a whole number of 64 bits.
    Other,
}

/// The values of a line under the names that lines know. Other names are dropped.
#[derive(Clone, Copy, Drop)]
pub struct Fields<'a> {
    pub cmd: Field<'a>,
    pub who: Field<'a>,
    pub at: Field<'a>,
    pub reference: Field<'a>,
    pub id: Field<'a>,
    pub to: Field<'a>,
    pub from: Field<'a>,
    pub cents: Field<'a>,
    pub stamp: Field<'a>,
    pub reason: Field<'a>,
    pub max: Field<'a>,
    pub skip: Field<'a>,
    pub count: Field<'a>,
    pub step: Field<'a>,
    pub place: Field<'a>,
    pub book: Field<'a>,
    pub event: Field<'a>,
    pub deadline: Field<'a>,
    pub outcome: Field<'a>,
}

impl<'a> Fields<'a> {
    /// Returns fields that are all missing.
    #[inline(always)]
    pub fn new() -> Fields<'a>
        ensures { fields_in_order result ≡ no_fields }
    {
        Fields {
            cmd: Field::Missing,
            who: Field::Missing,
            at: Field::Missing,
            reference: Field::Missing,
            id: Field::Missing,
            to: Field::Missing,
            from: Field::Missing,
            cents: Field::Missing,
            stamp: Field::Missing,
            reason: Field::Missing,
            max: Field::Missing,
            skip: Field::Missing,
            count: Field::Missing,
            step: Field::Missing,
            place: Field::Missing,
            book: Field::Missing,
            event: Field::Missing,
            deadline: Field::Missing,
            outcome: Field::Missing,
        }
    }

    /// Sets the field of this name, if lines know it.
    #[inline(always)]
    pub(crate) fn put(&mut self, name: &str, field: Field<'a>)
        ensures { fields_in_order self.new
            ≡ set (fields_in_order self.old) (name_index name.now) field.entry }
    {
        match name {
            "cmd" => self.cmd = field,
            "who" => self.who = field,
            "at" => self.at = field,
            "ref" => self.reference = field,
            "id" => self.id = field,
            "to" => self.to = field,
            "from" => self.from = field,
            "cents" => self.cents = field,
            "stamp" => self.stamp = field,
            "reason" => self.reason = field,
            "max" => self.max = field,
            "skip" => self.skip = field,
            "count" => self.count = field,
            "step" => self.step = field,
            "place" => self.place = field,
            "book" => self.book = field,
            "event" => self.event = field,
            "deadline" => self.deadline = field,
            "outcome" => self.outcome = field,
            _ => {}
        }
    }
}
