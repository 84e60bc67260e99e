use std::alloc::AllocError;

/// A party with a column.
#[derive(Clone, Copy, Drop)]
pub enum Column {
    /// A client, by its number.
    Client(u32),
    /// A node, by its number.
    Node(u8),
    /// The monitor.
    Monitor,
}

impl Column {
    /// Columns are in the order of rising rank.
    pub(crate) fn rank(self) -> u64 {
        match self {
            Column::Client(number) => u64::from(number),
            // Clients' numbers are below 2^32, so nodes come after all clients, and the monitor
            // last.
            Column::Node(number) => 0x1_0000_0000 + u64::from(number),
            Column::Monitor => 0x2_0000_0000,
        }
    }

    /// True if it is a client's.
    pub(crate) fn is_client(self) -> bool {
        match self {
            Column::Client(_) => true,
            Column::Node(_) => false,
            Column::Monitor => false,
        }
    }

    /// The text for a message to it that is never delivered.
    pub(crate) fn fate(self) -> &'static str {
        match self {
            Column::Client(_) => "\n",
            Column::Node(_) => ", lost\n",
            Column::Monitor => ", lost\n",
        }
    }

    /// Appends its name to a text.
    pub(crate) fn push_name(self, out: &mut String) -> Result<(), AllocError> {
        match self {
            Column::Client(number) => write!(out, "c{number}"),
            Column::Node(number) => write!(out, "{number}"),
            Column::Monitor => out.push_str("mon"),
        }
    }
}
