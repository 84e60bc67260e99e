/// The state of a node in its interval.
#[derive(Clone, Copy, PartialEq, Eq, Drop)]
pub enum Status {
    /// It doesn't act.
    Out,
    /// It acts, isn't the primary, and waits for the primary's list.
    Waiting,
    /// It acts, isn't the primary, and has the primary's list.
    Installed,
    /// The primary, which asks the members of the last activated interval for their lists.
    Asking,
    /// The primary, which has adopted a list, and has the others install it and the monitor
    /// activate the interval.
    Installing,
    /// The primary, which takes requests.
    Active,
}
