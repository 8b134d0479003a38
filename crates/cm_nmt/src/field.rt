ghost use Rattle.std.specs.Prelude.{◌≡◌};
ghost use Rattle.cm_nmt.specs.Fields.{fields};

/// A field of the answers, which one question fills (the writes: as many as are listed).
#[derive(Clone, Copy, Debug, PartialEq, Eq)]
pub enum Field {
    /// Object 1000h, the device type.
    Device,
    /// Object 1018h sub 1, the vendor-ID.
    Vendor,
    /// Object 1018h sub 2, the product code.
    Product,
    /// Object 1018h sub 3, the revision number.
    Revision,
    /// Object 1018h sub 4, the serial number.
    Serial,
    /// The state of a slave that is kept alive.
    State,
    /// Object 1020h sub 1, the configuration date.
    Date,
    /// Object 1020h sub 2, the configuration time.
    Time,
    /// The writes that configure the slave: those that were acknowledged, and the failed one.
    Writes,
    /// The beat by which error control starts.
    Beat,
}

static FIELDS: [Field; 10] = [
    Field::Device,
    Field::Vendor,
    Field::Product,
    Field::Revision,
    Field::Serial,
    Field::State,
    Field::Date,
    Field::Time,
    Field::Writes,
    Field::Beat,
];

/// The ten fields, in the order of the questions (CiA 302-2, boot slave; the place of the state
/// check is own).
#[tactic(auto, unfolding(crate::specs::Fields::fields))]
pub fn fields() -> &'static [Field]
    ensures { result.now ≡ fields }
{
    &FIELDS
}
