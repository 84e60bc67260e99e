//! The examples at the end of each subcommand's help, which run in the folder `examples`.

pub(crate) const VERIFY: &str = "Examples:
  radoscls verify count.img
  radoscls verify count.img --explain
  radoscls verify count.img --all
  radoscls verify count.img hello.txt
  radoscls verify count.img hello.txt --json
  radoscls verify loops/sum.txt --loops";

pub(crate) const RUN: &str = "Examples:
  radoscls run keep.img keep --input 726f6f74
  radoscls run keep.img keep --input-text root
  radoscls run count.img count --key n=0500000000000000 --show
  radoscls run count.img count --object @count.txt --show
  radoscls run hello.txt hello --trace
  radoscls run count.img count --save kept.txt
  radoscls run count.img count --load kept.txt --save kept.txt
  radoscls run count.img count --limits ceph
  radoscls run loops/sum.txt sum --loops --input 0102ff
  radoscls run count.img count --json";

pub(crate) const TEST: &str = "Examples:
  radoscls test count.img count.test
  radoscls test count.txt count.test --trace
  radoscls test loops/sum.txt loops/sum.test --loops";

pub(crate) const ASM: &str = "Examples:
  radoscls asm count.txt count.img
  radoscls asm count.txt count.img --all
  radoscls asm loops/sum.txt loop.img --heads";

pub(crate) const PACK: &str = "Examples:
  radoscls pack sum.img sum:r:16:8:sum.bin
  radoscls pack sum.img --rules 2 sum:r:16:8:sum.bin
  radoscls pack sum.img --rules 3 --heads sum:r:16:8:sum.bin";

pub(crate) const DIS: &str = "Examples:
  radoscls dis count.img
  radoscls dis count.img --slots";

pub(crate) const HEADS: &str = "Examples:
  radoscls heads loops/sum.txt loop.img
  radoscls heads loops/sum.txt loop.img --budget 4096";

pub(crate) const SIM: &str = "Examples:
  radoscls sim survive.sim
  radoscls sim survive.sim --objects
  radoscls sim survive.sim --class count=count.img --trace";

pub(crate) const CLUSTER: &str = "Examples:
  radoscls cluster lost_primary.cluster
  radoscls cluster lost_primary.cluster --class count=count.img --stats";

/// For the help of `verify`.
pub(crate) const ALL: &str = "Prints each method's verdict, and not the first refusal alone";

/// For the help of `verify`.
pub(crate) const LOOPS: &str = "Judges loops by the heads that methods declare";

/// For the help of `heads`.
pub(crate) const BUDGET: &str =
    "What the instructions of a call may take, 1 to 1048576: a helper's call 64, each other one 1";

/// For the help of `asm` and `pack`.
pub(crate) const FIND_HEADS: &str =
    "Finds heads for the loops of the class, as the command heads does";

/// For the help of `asm` and `pack`.
pub(crate) const GIVEN_BUDGET: &str =
    "With --heads: what the instructions of a call may take, 1 to 1048576; if it isn't given, 131072";

/// For the help of `asm`.
pub(crate) const ALL_LINES: &str = "Prints each wrong line of the text, and not the first alone";

/// For the help of `run`.
pub(crate) const INPUT_TEXT: &str = "The input: the bytes of a text, in place of --input";

/// For the help of `run`.
pub(crate) const INPUT_U64: &str =
    "The input: numbers of 64 bits, 8 bytes each, the lowest first, in place of --input";

/// For the help of `run`.
pub(crate) const LIMITS: &str =
    "What the object may hold: 'profile', or 'ceph' for 134217728 bytes, and any number of xattrs and keys";

/// For the help of `run` and `test`.
pub(crate) const RUN_LOOPS: &str =
    "Judges the class by the heads that methods declare, and runs their loops by their budgets";

/// For the help of `run`.
pub(crate) const LOAD: &str =
    "The object before the call: a file that --save wrote, or one of such lines";

/// For the help of `run`.
pub(crate) const SAVE: &str =
    "Writes the object after the call to a file, in the lines of --show; none where it is absent";

/// The file of tests, for the help of `test`.
pub(crate) const TEST_FILE: &str =
    "The file of the tests: lines 'object none|VALUE' (begins a case), 'xattr NAME VALUE', 'key NAME VALUE', \
    'as N' (the client), 'call METHOD VALUE -> CODE [VALUE]', 'is data VALUE', 'is xattr NAME VALUE|none', \
    'is key NAME VALUE|none'; a VALUE is hexadecimal, - for no bytes, text:.., u8:.., u16:.., u32:.. or \
    u64:1,2.., or several joined by +";

/// For the help of `test`.
pub(crate) const TEST_TRACE: &str =
    "Prints below a call that answers otherwise each instruction that it executed, as run --trace does";

/// For the help of `sim`.
pub(crate) const OBJECTS: &str = "Shows below each node that is shown what its objects hold";

/// For the help of `cluster`.
pub(crate) const FOLLOW: &str =
    "Writes the lines of calls to standard error too, while the run goes on";

/// A file of calls and maps, for the help of `cluster`.
pub(crate) const CLUSTER_FILE: &str =
    "The file: 'cluster nodes 3 replicas 3 groups 64 shards 4 workers 4 tries 100000000', then lines \
    'client C OBJECT CLASS METHOD HEX' (- for no input; clients first appear as 1, 2, ..) and 'map N N ..' \
    (the nodes that are up from then on)";
