//! The table of calls that can be refused memory.

use crate::ending::Ending;
use crate::handles::{class_held, held_called};
use crate::lists::{acts, board, packed, queues, unpacked};
use crate::logs::{Verb, logged};
use crate::loops::{called_by_budget, class_verified, loops_read, loops_verified};
use crate::nodes::{NodeCall, mapped, played};
use crate::objects::{Deed, edited, named, stored};
use crate::rounds::called_by_rounds;
use crate::staged::{Step, Turn, stepped, turned};
use crate::verdicts::{Case, ONE, TWO, verified};
use crate::{calls, images, texts};
use object_store::{ExtentData, FlatData};
use std::alloc::Global;

/// A call that can be refused memory.
#[derive(Clone, Copy)]
pub enum Row {
    Decode,
    Encode,
    ReadImage,
    WriteImage,
    Assemble,
    Disassemble,
    AssembleClass,
    DisassembleClass,
    AssembleLoops,
    DisassembleLoops,
    Verify(Case),
    ObjectName,
    Objects(Deed),
    EditFlat,
    EditExtents,
    Staged(Step),
    Turn(Turn),
    Call,
    CallListed,
    CallPart,
    CallInRoom,
    AddClass,
    ReadLoops,
    VerifyByHeads,
    VerifyLoops,
    CallByBudget,
    OpenLoops,
    CallLoops,
    Log(Verb),
    PackLog,
    UnpackLog,
    Acting,
    Queues,
    Board,
    NewMap,
    Node(NodeCall),
}

/// Each row with its name.
#[rattlefmt::skip]
pub const ROWS: [(&str, Row); 56] = [
    ("decode", Row::Decode),
    ("encode", Row::Encode),
    ("read_image", Row::ReadImage),
    ("write_image", Row::WriteImage),
    ("assemble", Row::Assemble),
    ("disassemble", Row::Disassemble),
    ("assemble_class", Row::AssembleClass),
    ("disassemble_class", Row::DisassembleClass),
    ("assemble_loops", Row::AssembleLoops),
    ("disassemble_loops", Row::DisassembleLoops),
    ("verify", Row::Verify(ONE)),
    ("verify_spills", Row::Verify(TWO)),
    ("object_name", Row::ObjectName),
    ("objects_put", Row::Objects(Deed::Put)),
    ("objects_store", Row::Objects(Deed::Store)),
    ("objects_write", Row::Objects(Deed::Write)),
    ("objects_truncate", Row::Objects(Deed::Truncate)),
    ("objects_set_xattr", Row::Objects(Deed::SetXattr)),
    ("objects_set_key", Row::Objects(Deed::SetKey)),
    ("objects_remove_xattr", Row::Objects(Deed::RemoveXattr)),
    ("objects_remove_key", Row::Objects(Deed::RemoveKey)),
    ("objects_create", Row::Objects(Deed::Create)),
    ("objects_remove", Row::Objects(Deed::Remove)),
    ("edit_flat", Row::EditFlat),
    ("edit_extents", Row::EditExtents),
    ("staged_write", Row::Staged(Step::Write)),
    ("staged_truncate", Row::Staged(Step::Truncate)),
    ("staged_set_xattr", Row::Staged(Step::SetXattr)),
    ("staged_remove_xattr", Row::Staged(Step::RemoveXattr)),
    ("staged_set_key", Row::Staged(Step::SetKey)),
    ("staged_remove_key", Row::Staged(Step::RemoveKey)),
    ("apply", Row::Turn(Turn::Apply)),
    ("undo", Row::Turn(Turn::Undo)),
    ("call", Row::Call),
    ("call_listed", Row::CallListed),
    ("call_part", Row::CallPart),
    ("call_in_room", Row::CallInRoom),
    ("add_class", Row::AddClass),
    ("read_loops", Row::ReadLoops),
    ("verify_by_heads", Row::VerifyByHeads),
    ("verify_loops", Row::VerifyLoops),
    ("call_by_budget", Row::CallByBudget),
    ("open_loops", Row::OpenLoops),
    ("call_loops", Row::CallLoops),
    ("append", Row::Log(Verb::Append)),
    ("append_at", Row::Log(Verb::AppendAt)),
    ("adopt", Row::Log(Verb::Adopt)),
    ("replay", Row::Log(Verb::Replay)),
    ("pack_log", Row::PackLog),
    ("unpack_log", Row::UnpackLog),
    ("acting", Row::Acting),
    ("queues", Row::Queues),
    ("board", Row::Board),
    ("new_map", Row::NewMap),
    ("handle", Row::Node(NodeCall::Handle)),
    ("resend", Row::Node(NodeCall::Resend)),
];

impl Row {
    /// The row of a name.
    pub fn of(name: &str) -> Option<Row> {
        for (its_name, row) in &ROWS {
            if *its_name == name {
                return Some(*row);
            }
        }
        None
    }

    /// Makes the call, and once more if memory is refused.
    pub fn run(self, alloc: Global) -> Ending {
        match self.end(alloc) {
            Some(Ending::Answered) => Ending::Answered,
            Some(Ending::Refused) => Ending::Refused.then(self.end(alloc)),
            Some(Ending::Differs) => Ending::Differs,
            None => Ending::Answered.then(self.end(alloc)),
        }
    }

    /// Makes the call, of values that are made for it. A call that changes its state is made again
    /// on the same state if it is refused. None if memory is refused to what it is made of.
    #[rattlefmt::skip]
    fn end(self, alloc: Global) -> Option<Ending> {
        match self {
            Row::Decode => Some(images::decoded(alloc)),
            Row::Encode => images::encoded(alloc),
            Row::ReadImage => Some(images::read(alloc)),
            Row::WriteImage => images::written(alloc),
            Row::Assemble => Some(texts::assembled(alloc)),
            Row::Disassemble => texts::disassembled(alloc),
            Row::AssembleClass => Some(texts::class_assembled(alloc)),
            Row::DisassembleClass => texts::class_disassembled(alloc),
            Row::AssembleLoops => Some(texts::loops_assembled(alloc)),
            Row::DisassembleLoops => texts::loops_disassembled(alloc),
            Row::Verify(case) => verified(alloc, case),
            Row::ObjectName => Some(named(alloc)),
            Row::Objects(deed) => stored(alloc, deed),
            Row::EditFlat => edited(alloc, &mut FlatData::new(alloc)),
            Row::EditExtents => edited(alloc, &mut ExtentData::new()),
            Row::Staged(step) => stepped(alloc, step),
            Row::Turn(turn) => turned(alloc, turn),
            Row::Call => calls::called(alloc),
            Row::CallListed => calls::called_listed(alloc),
            Row::CallPart => called_by_rounds(alloc),
            Row::CallInRoom => calls::called_in_room(alloc),
            Row::AddClass => calls::added(alloc),
            Row::ReadLoops => Some(loops_read(alloc)),
            Row::VerifyByHeads => loops_verified(alloc),
            Row::VerifyLoops => class_verified(alloc),
            Row::CallByBudget => called_by_budget(alloc),
            Row::OpenLoops => class_held(alloc),
            Row::CallLoops => held_called(alloc),
            Row::Log(verb) => logged(alloc, verb),
            Row::PackLog => packed(alloc),
            Row::UnpackLog => unpacked(alloc),
            Row::Acting => acts(alloc),
            Row::Queues => Some(queues(alloc)),
            Row::Board => Some(board(alloc)),
            Row::NewMap => mapped(alloc),
            Row::Node(call) => played(alloc, call),
        }
    }
}
