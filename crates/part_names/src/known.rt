/// What is known of a name.
#[derive(Drop)]
pub enum Known<'a> {
    /// It isn't known if the name is there.
    Unknown,
    /// It isn't there.
    Absent,
    /// It is there, with this value.
    Value(&'a [u8]),
}
