//! The keys of a network list in TOML whose values are integers.

ghost use Rattle.std.specs.Prelude.{◌≡◌, map};
ghost use Rattle.cm_netlist.specs.Keys.{integer, slave_integers, top_integers};
ghost use Rattle.cm_netlist.specs.ListKeys.{key_of};

/// A key whose value is an integer: the least and the greatest that may stand there, whether a table has to have it, and its unit.
#[derive(Clone, Copy)]
pub struct IntegerKey {
    pub name: &'static str,
    pub least: u64,
    pub greatest: u64,
    pub needed: bool,
    /// ` ms`, or nothing.
    pub unit: &'static str,
}

/// A key of these four.
fn key(name: &'static str, least: u64, greatest: u64, needed: bool) -> IntegerKey
    ensures { key_of result ≡ integer name.now least greatest needed }
{
    IntegerKey {
        name,
        least,
        greatest,
        needed,
        unit: "",
    }
}

/// The key, whose value is in milliseconds.
fn in_ms(key: IntegerKey) -> IntegerKey
    ensures { key_of result ≡ key_of key }
{
    IntegerKey { unit: " ms", ..key }
}

/// The integers of the list itself.
#[tactic(auto, unfolding(crate::specs::Keys::top_integers))]
pub fn top_integers() -> [IntegerKey; 3]
    ensures { map key_of result ≡ top_integers }
{
    [
        key("own", 1, 127, true),
        key("startup", 0, 4_294_967_295, true),
        in_ms(key("boot_time", 0, 4_294_967_295, false)),
    ]
}

/// The integers of a slave.
#[tactic(auto, unfolding(crate::specs::Keys::slave_integers))]
pub fn slave_integers() -> [IntegerKey; 10]
    ensures { map key_of result ≡ slave_integers }
{
    [
        key("id", 1, 127, true),
        key("assignment", 0, 4_294_967_295, true),
        key("device_type", 0, 4_294_967_295, false),
        key("vendor", 0, 4_294_967_295, false),
        key("product", 0, 4_294_967_295, false),
        key("revision", 0, 4_294_967_295, false),
        key("serial", 0, 4_294_967_295, false),
        in_ms(key("heartbeat", 0, 65_535, false)),
        key("date", 0, 4_294_967_295, false),
        in_ms(key("time", 0, 4_294_967_295, false)),
    ]
}
