/// The rules by which a class is verified. The first four bytes of its image name them: `RCL1`,
/// `RCL2` or `RCL3`.
#[derive(Clone, Copy, Debug, PartialEq, Eq)]
pub enum RuleSet {
    One,
    Two,
    Three,
}
