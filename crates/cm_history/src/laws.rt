ghost use Rattle.std.specs.Prelude.{ℕ, List};
ghost use Rattle.cm_history.specs.Legal.{IsLegal};
ghost use Rattle.cm_history.specs.Machine.{ListsNodes, ShowsItsHistory};
ghost use Rattle.cm_nmt.specs.Listing.{Listing};
ghost use Rattle.cm_history.specs.declared.call.Entry.{Entry as AnEntry};
ghost use Rattle.cm_history.specs.Laws.{AtEach, BecomesOperationalRightly, ReadsShow, StartsRightly};

/// A law of legal histories, over the definitions alone: no boot starts a slave of wrong identity.
/// Where the report of a boot starts a slave, its 1F81h bit 2 is set, the verdict is Ok, each set
/// value of 1F84h to 1F88h is the one that was answered, and the session was begun and the slave not
/// cleared since.
pub fn boots_start_rightly()
    ensures law { (net : Listing) (past : List AnEntry) → IsLegal net past
        → AtEach (StartsRightly net) past }
{}

/// A law of legal histories, over the definitions alone: the network becomes operational only with
/// every mandatory slave booted. Where the manager itself becomes operational, and where the orders
/// are a start of all, no mandatory slave is open, and each one with 1F81h bit 2 has shown its set
/// values of 1F84h to 1F88h since it was last cleared.
pub fn network_becomes_operational_rightly()
    ensures law { (net : Listing) (past : List AnEntry) → IsLegal net past
        → AtEach (BecomesOperationalRightly net) past }
{}

/// A law of the definitions alone: a read of a node that isn't refused is answered with what the
/// history shows of the node.
pub fn reads_show()
    ensures law { (net : Listing) (past : List AnEntry) (node : ℕ) → ReadsShow net past node }
{}

/// A law of legal histories, over the definitions alone: the machine by which the manager is
/// programmed shows its history. Run over the calls of a legal history of a network that lists no
/// number above 127, it keeps, after each of them, what the definitions look back for: the phase, the own
/// state, how many sessions were begun, each slave, and the open slaves. And it answers each next
/// call as the tables answer it after that history.
pub fn machine_shows_its_history()
    ensures law { (net : Listing) (past : List AnEntry) → ListsNodes net → IsLegal net past
        → ShowsItsHistory net past }
{}
