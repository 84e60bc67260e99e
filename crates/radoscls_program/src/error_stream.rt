/// Where usage, help and figures go.
#[derive(Drop)]
pub(crate) struct ErrorStream<'a, E> {
    pub(crate) to: &'a mut E,
    /// True if it is a terminal.
    pub(crate) is_terminal: bool,
}
