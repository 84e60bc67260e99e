ghost use Rattle.std.specs.Prelude.{IfOk, OnOk};
ghost use Rattle.bpf_asm.specs.Places.{AreLabels, IsNoted};

use crate::body::line_slots;
use asm_lines::Statement;
use std::alloc::{AllocError, Global};
use std::collections::BTreeMap;
use std::marker::Model;

/// The labels of a method's lines by name: the slot and the line of each one's first definition.
/// Contracts see the lines. Each label and each look-up costs a logarithm of the number of labels.
#[derive(Drop)]
pub(crate) struct Labels<'a, 't> {
    lines: &'a [Statement<'t>],
    first: BTreeMap<&'t [u8], (usize, usize)>,
}

impl<'a, 't> Model for Labels<'a, 't> {
    ghost use Rattle.std.specs.Prelude.{List};
    ghost use Rattle.asm_lines.specs.declared.statement.Statement.{Statement as Line};
    ghost use Rattle.bpf_asm.specs.Places.{AreLabels};

    ghost Value = { List Line };

    ghost view = { λ l. l.lines.now };

    ghost invariant = { λ l. AreLabels l.first l.lines.now };
}

impl<'a, 't> Labels<'a, 't> {
    ghost use Rattle.std.specs.Prelude.{◌≡◌, IfOk, is_some, take};
    ghost use Rattle.bpf_asm.specs.Bodies.{slot_of_label};

    /// The labels of the lines.
    pub(crate) fn of(
        alloc: Global,
        lines: &'a [Statement<'t>],
    ) -> Result<Labels<'a, 't>, AllocError>
        ensures { IfOk result (λ l. l ≡ lines.now) }
    {
        let first = first_of(alloc, lines)?;
        Ok(Labels { lines, first })
    }

    /// The slot of the first label of that name.
    pub(crate) fn slot(&self, name: &[u8]) -> Option<usize>
        ensures { result ≡ slot_of_label name.now 0 self.now }
    {
        match self.first.get(name) {
            Some(first) => Some(first.0),
            None => None,
        }
    }

    /// True if a label of that name is defined above a line, which is given by its index among the
    /// lines.
    pub(crate) fn stands_above(&self, name: &[u8], line: usize) -> bool
        ensures { result ≡ is_some (slot_of_label name.now 0 (take line self.now)) }
    {
        match self.first.get(name) {
            Some(first) => first.1 < line,
            None => false,
        }
    }
}

/// Adds a name's place, unless the name has one: the first definition counts.
fn note<'a>(
    first: &mut BTreeMap<&'a [u8], (usize, usize)>,
    name: &'a [u8],
    place: (usize, usize),
) -> Result<(), AllocError>
    ensures { OnOk result (IsNoted first.old first.new name.now place) }
{
    if !first.contains_key(name) {
        first.insert(name, place)?;
    }
    Ok(())
}

/// The slot and the line of each label's first line.
fn first_of<'t>(
    alloc: Global,
    lines: &[Statement<'t>],
) -> Result<BTreeMap<&'t [u8], (usize, usize)>, AllocError>
    ensures { IfOk result (λ m. AreLabels m lines.now) }
{
    let mut first = BTreeMap::new(alloc);
    let mut slot = 0;
    let mut index = 0;
    while index < lines.len() {
        if let Statement::Label(name) = &lines[index] {
            note(&mut first, name.as_bytes(), (slot, index))?;
        }
        slot += line_slots(&lines[index]);
        index += 1;
    }
    Ok(first)
}
