use session_core::{BreakCause, Seat};

/// What came of an attempt to take a reply on a link.
#[derive(Debug, Drop)]
pub enum Took {
    /// No whole reply has come.
    Nothing,
    /// A reply for this part was taken. The part keeps it: it is answered, or was refused for the last
    /// time.
    Kept(Seat),
    /// This reply for a part was taken. It says that the node refused the part, which waits again, or
    /// whose call nobody waits for.
    Back(Seat, Vec<u8>),
    /// The reply to the login of the link.
    Login(Vec<u8>),
    /// The reply to `CLUSTER SLOTS`, which was asked after so many `MOVED` had been learned.
    Map(u64, Vec<u8>),
    /// The reply to an `ASKING`. It is for nobody.
    Asking(Vec<u8>),
    /// The link is to be closed: nobody can take what came.
    Broken(BreakCause),
}
