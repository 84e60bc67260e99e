use pg_log::ClientId;

/// A name and a value that an object has, as words spell them.
#[derive(Clone, Copy)]
pub struct SpelledEntry<'a> {
    /// The name: after `0x` in hexadecimal, else as it stands.
    pub name: &'a str,
    /// The value, in hexadecimal.
    pub value: &'a str,
}

/// A call of a method of a file's class, on the object that words or a file spell, or on none.
#[derive(Drop)]
pub struct MethodCall<'a> {
    /// The file of the class, as an image or as a text.
    pub image: &'a str,
    /// The name of the method.
    pub method: &'a str,
    /// The input, in hexadecimal.
    pub input: &'a str,
    /// Who calls.
    pub caller: ClientId,
    /// The object's data before the call, in hexadecimal. Without data, xattrs and keys there is no
    /// object.
    pub data: Option<&'a str>,
    /// Its xattrs, set in this order.
    pub xattrs: Vec<SpelledEntry<'a>>,
    /// The keys of its omap, set in this order.
    pub keys: Vec<SpelledEntry<'a>>,
    /// The file whose text spells the object before the call, in place of those.
    pub load: Option<&'a str>,
    /// The file that becomes the text of the object after it.
    pub save: Option<&'a str>,
    /// True if the report shows all that the object holds after the call.
    pub is_shown: bool,
    /// True if the report begins with the instructions that the call executes.
    pub is_traced: bool,
}
