use bpf_decode::RuleSet;
use object_texts::MethodCall;

/// A method of a class that is packed.
#[derive(Clone, Copy)]
pub struct RawMethod<'a> {
    /// Its name.
    pub name: &'a str,
    /// 1 reads, 2 writes, 3 both.
    pub flags: u8,
    /// The most bytes that its input may have.
    pub in_cap: u16,
    /// The most bytes that its output may have.
    pub out_cap: u16,
    /// The file of its raw code, eight bytes a slot.
    pub code: &'a str,
}

/// A class of methods whose raw code files hold, made an image.
#[derive(Drop)]
pub struct Packing<'a> {
    /// The file that becomes the image.
    pub image: &'a str,
    /// The rules by which the class is verified.
    pub rules: RuleSet,
    /// The methods, in their order.
    pub methods: Vec<RawMethod<'a>>,
}

/// A request to the program, as its words ask it.
#[derive(Drop)]
pub enum Action<'a> {
    /// Tell whether the class in a file is safe.
    Verify { image: &'a str },
    /// A call.
    Run(MethodCall<'a>),
    /// A call by an OSD's limits, on an object that may be past those of an `Object`. It has no trace.
    RunLarge(MethodCall<'a>),
    /// The image of the class whose text is in a file, into another file.
    Assemble { text: &'a str, image: &'a str },
    /// The image of a class of raw code.
    Pack(Packing<'a>),
    /// The canonical text of the class in a file, with each instruction's slot or without.
    Disassemble { image: &'a str, has_slots: bool },
}
