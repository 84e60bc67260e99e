//! What is asked of classes with loops.

ghost use Rattle.std.specs.Prelude.{◌≡◌};

use class_tool::Packing;

/// The files whose classes are judged by their heads.
#[derive(Drop)]
pub struct LoopsAsked<'a> {
    /// The files, in their order.
    pub files: Vec<&'a str>,
    /// True if refusals are explained.
    pub is_explained: bool,
}

impl LoopsAsked<'_> {
    ghost use Rattle.loop_tool.specs.Reports.{is_named};

    /// True if each line begins with its file's name: there are several files.
    pub fn is_named(&self) -> bool
        ensures { result ≡ is_named self.now }
    {
        self.files.len() > 1
    }
}

/// A class that gets heads.
#[derive(Clone, Copy)]
pub struct HeadsAsked<'a> {
    /// The file of the class: its image or text.
    pub class: &'a str,
    /// The file that becomes the image.
    pub image: &'a str,
    /// What the instructions of a method with loops may take, 1 to 1,048,576.
    pub budget: u32,
}

/// A class of raw code that gets heads before its image is written.
#[derive(Drop)]
pub struct HeadedPacking<'a> {
    /// The class, and the file that becomes its image.
    pub packing: Packing<'a>,
    /// What the instructions of a method with loops may take, 1 to 1,048,576.
    pub budget: u32,
}
