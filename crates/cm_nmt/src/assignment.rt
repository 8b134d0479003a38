ghost use Rattle.std.specs.Prelude.{⊤, ◌≡◌, [], ◌∷◌, codes};
ghost use Rattle.cm_nmt.specs.Bits.{has_bit};
ghost use Rattle.cm_nmt.specs.Guarding.{guard_time, retry_factor};

use bitflags::{Flag, Flags, bitflag_items};

/// Object 1F81h of one node, slave assignment (CiA 302-2). Bits without a name are carried and
/// mean nothing here; [`Assignment::retry_factor`] and [`Assignment::guard_time_ms`] are numbers in it.
#[derive(Clone, Copy, Debug, PartialEq, Eq)]
pub struct Assignment(pub u32);

bitflag_items! {
    impl Assignment: u32 {
        const NMT_SLAVE = 1;
        const BOOT_SLAVE = 4;
        const MANDATORY = 8;
        const KEEP_ALIVE = 16;
        const VERIFY_SOFTWARE = 32;
    }
}

impl Flags for Assignment {
    type Bits = u32;

    ghost exact = { ⊤ };

    ghost table = { (codes "NMT_SLAVE", 1)
        ∷ (codes "BOOT_SLAVE", 4)
        ∷ (codes "MANDATORY", 8)
        ∷ (codes "KEEP_ALIVE", 16)
        ∷ (codes "VERIFY_SOFTWARE", 32)
        ∷ [] };

    ghost set_of = { λ a. a.0 };

    fn flags<'a>() -> &'a [Flag<Assignment>] {
        Assignment::FLAGS
    }

    fn bits(&self) -> u32 {
        self.0
    }

    fn from_bits_retain(bits: u32) -> Assignment {
        Assignment(bits)
    }
}

impl Assignment {
    /// Whether the node is a slave of the network list: bit 0.
    pub fn is_listed(&self) -> bool
        ensures { result ≡ has_bit self.now.0 0 }
    {
        self.contains(Assignment::NMT_SLAVE)
    }

    /// Whether the slave is to be booted: bit 2. Where the bit is clear, the slave may be neither
    /// configured nor started.
    pub fn is_to_be_booted(&self) -> bool
        ensures { result ≡ has_bit self.now.0 2 }
    {
        self.contains(Assignment::BOOT_SLAVE)
    }

    /// Whether the slave is mandatory: bit 3.
    pub fn is_mandatory(&self) -> bool
        ensures { result ≡ has_bit self.now.0 3 }
    {
        self.contains(Assignment::MANDATORY)
    }

    /// Whether the slave is kept alive: bit 4. Such a slave gets no reset communication while it
    /// is operational.
    pub fn is_kept_alive(&self) -> bool
        ensures { result ≡ has_bit self.now.0 4 }
    {
        self.contains(Assignment::KEEP_ALIVE)
    }

    /// Whether the slave's software version has to be verified: bit 5.
    pub fn verifies_software(&self) -> bool
        ensures { result ≡ has_bit self.now.0 5 }
    {
        self.contains(Assignment::VERIFY_SOFTWARE)
    }

    /// The retry factor of node guarding: bits 8 to 15. After so many guard times without an answer the slave is lost
    /// (CiA 301); 0: it isn't guarded.
    pub fn retry_factor(&self) -> u8
        ensures { result ≡ retry_factor self.now.0 }
    {
        (self.0 / 0x0100 % 0x0100) as u8
    }

    /// The guard time, in ms: bits 16 to 31. So often the slave is asked for its state (CiA 301); 0: it isn't guarded.
    pub fn guard_time_ms(&self) -> u16
        ensures { result ≡ guard_time self.now.0 }
    {
        (self.0 / 0x0001_0000) as u16
    }
}
