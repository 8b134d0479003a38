ghost use Rattle.std.specs.Prelude.{⊤, ◌≡◌, [], ◌∷◌, codes};
ghost use Rattle.cm_nmt.specs.Bits.{has_bit};

use bitflags::{Flag, Flags, bitflag_items};

/// Object 1F80h, NMT startup (CiA 302-2). Bits without a name are carried and mean nothing here.
#[derive(Clone, Copy, Debug, PartialEq, Eq)]
pub struct Startup(pub u32);

bitflag_items! {
    impl Startup: u32 {
        const NMT_MASTER = 1;
        const START_ALL_NODES = 2;
        const APPLICATION_STARTS_MASTER = 4;
        const APPLICATION_STARTS_SLAVES = 8;
        const RESET_ALL_NODES = 16;
        const STOP_ALL_NODES = 64;
    }
}

impl Flags for Startup {
    type Bits = u32;

    ghost exact = { ⊤ };

    ghost table = { (codes "NMT_MASTER", 1)
        ∷ (codes "START_ALL_NODES", 2)
        ∷ (codes "APPLICATION_STARTS_MASTER", 4)
        ∷ (codes "APPLICATION_STARTS_SLAVES", 8)
        ∷ (codes "RESET_ALL_NODES", 16)
        ∷ (codes "STOP_ALL_NODES", 64)
        ∷ [] };

    ghost set_of = { λ s. s.0 };

    fn flags<'a>() -> &'a [Flag<Startup>] {
        Startup::FLAGS
    }

    fn bits(&self) -> u32 {
        self.0
    }

    fn from_bits_retain(bits: u32) -> Startup {
        Startup(bits)
    }
}

impl Startup {
    /// Whether the device is the NMT master: bit 0.
    pub fn is_master(&self) -> bool
        ensures { result ≡ has_bit self.now.0 0 }
    {
        self.contains(Startup::NMT_MASTER)
    }

    /// Whether all slaves are started at once with node-ID 0, and not one by one: bit 1.
    pub fn starts_all_at_once(&self) -> bool
        ensures { result ≡ has_bit self.now.0 1 }
    {
        self.contains(Startup::START_ALL_NODES)
    }

    /// Whether the application decides when the manager enters operational, and not the manager
    /// by itself: bit 2.
    pub fn leaves_operational_to_application(&self) -> bool
        ensures { result ≡ has_bit self.now.0 2 }
    {
        self.contains(Startup::APPLICATION_STARTS_MASTER)
    }

    /// Whether the manager starts no slave by itself: bit 3.
    pub fn starts_no_slave(&self) -> bool
        ensures { result ≡ has_bit self.now.0 3 }
    {
        self.contains(Startup::APPLICATION_STARTS_SLAVES)
    }

    /// Whether all nodes are reset on an error control event of a mandatory slave: bit 4.
    pub fn resets_all_on_error(&self) -> bool
        ensures { result ≡ has_bit self.now.0 4 }
    {
        self.contains(Startup::RESET_ALL_NODES)
    }

    /// Whether all nodes are stopped on that event, in place of a reset: bit 6.
    pub fn stops_all_on_error(&self) -> bool
        ensures { result ≡ has_bit self.now.0 6 }
    {
        self.contains(Startup::STOP_ALL_NODES)
    }
}
