//! A text's lines, and which of them are wrong because of others.

use crate::nearest::nearer;
use crate::source::{draft_slots, slots_of};
use asm_lines::{AsmFault, Draft, Header, Statement, Target};
use bpf_decode::{METHOD_LIMIT, RuleSet, SLOT_LIMIT, capacity_limit};
use loop_asm::other_statements;
use std::alloc::{AllocError, Global};

/// A label: how many methods begin above it, its name, and the index of its line.
type Label<'a> = (usize, &'a [u8], usize);

/// The lines of a text, what each says besides loops, and the labels in order.
#[derive(Drop)]
pub(crate) struct Lines<'a> {
    pub(crate) texts: Vec<&'a str>,
    pub(crate) statements: Vec<Statement<'a>>,
    labels: Vec<Label<'a>>,
}

/// What stands above a line.
#[derive(Clone, Copy)]
pub(crate) struct Above<'a> {
    /// The rule set of the class.
    pub(crate) rules: RuleSet,
    /// True if a line that isn't empty stands above.
    has_line: bool,
    /// How many methods begin above.
    methods: usize,
    /// The last one's name.
    name: &'a [u8],
    /// The index of the line below its first.
    first: usize,
    /// The slots of its instructions above.
    slots: usize,
}

/// Why a line is wrong.
#[derive(Clone, Copy)]
pub(crate) enum Place<'a> {
    /// By its own words.
    Itself,
    /// The text has no instruction.
    BareText,
    /// It says loops.
    Loops,
    BeforeMethod,
    /// A `.rules` below other lines.
    RulesBelow,
    /// A method without an instruction.
    BareMethod,
    TooManyMethods,
    /// A capacity that the rule set doesn't allow.
    Capacity(RuleSet),
    /// A name that isn't above that of the method before.
    NotAbove(&'a [u8]),
    TooManySlots,
    /// A label's name, and the index of the line that has it already.
    LabelTwice(&'a [u8], usize),
    /// A label's name that the method doesn't have, its nearest, and the index of a line that may
    /// be meant as it.
    NoLabel(&'a [u8], Option<&'a [u8]>, Option<usize>),
}

/// A line's fault, and why it is there.
pub(crate) type Found<'a> = Option<(AsmFault, Place<'a>)>;

/// The label to which an instruction goes.
fn label_of<'a>(draft: &'a Draft<'_>) -> Option<&'a [u8]> {
    match draft {
        Draft::Jump(Target::Label(name)) | Draft::JumpLong(Target::Label(name)) => {
            Some(name.as_bytes())
        }
        Draft::Branch(_, _, _, _, Target::Label(name)) | Draft::CallLocal(Target::Label(name)) => {
            Some(name.as_bytes())
        }
        Draft::Plain(_) | Draft::Jump(_) | Draft::JumpLong(_) => None,
        Draft::Branch(_, _, _, _, _) | Draft::CallLocal(_) => None,
    }
}

/// True if a line is an instruction's.
fn is_instruction(line: &Statement) -> bool {
    match line {
        Statement::Instruction(_) => true,
        _ => false,
    }
}

/// True if a line begins a method.
fn is_directive(line: &Statement) -> bool {
    match line {
        Statement::Directive(_) => true,
        _ => false,
    }
}

/// True if a line has that name alone, in letters of either case, or before a colon.
fn is_meant_as(line: &str, name: &[u8]) -> bool {
    let code = line.split(';').next().unwrap_or("");
    let head = code.split(':').next().unwrap_or("");
    head.trim().as_bytes().eq_ignore_ascii_case(name)
}

/// True if a line is an instruction that goes to that label.
fn goes_to(line: &Statement, name: &[u8]) -> bool {
    match line {
        Statement::Instruction(Ok(draft)) => label_of(draft) == Some(name),
        _ => false,
    }
}

/// The labels of lines, in order.
fn labels_of<'a>(alloc: Global, lines: &[Statement<'a>]) -> Result<Vec<Label<'a>>, AllocError> {
    let mut labels = Vec::new(alloc);
    push_labels(&mut labels, lines)?;
    labels.sort()?;
    Ok(labels)
}

/// Adds the labels of lines.
fn push_labels<'a>(labels: &mut Vec<Label<'a>>, lines: &[Statement<'a>]) -> Result<(), AllocError> {
    let mut methods = 0_usize;
    for (index, line) in lines.iter().enumerate() {
        match line {
            Statement::Directive(_) => methods = methods.saturating_add(1),
            Statement::Label(name) => {
                let name = name.as_bytes();
                labels.push((methods, name, index))?;
            }
            Statement::Empty | Statement::Rules(_) | Statement::Instruction(_) => {}
        }
    }
    Ok(())
}

impl<'a> Above<'a> {
    /// What stands above the first line.
    pub(crate) fn nothing() -> Above<'a> {
        Above {
            rules: RuleSet::One,
            has_line: false,
            methods: 0,
            name: &[],
            first: 0,
            slots: 0,
        }
    }

    /// The same of the line below the one of an index.
    pub(crate) fn below(self, index: usize, line: &'a Statement) -> Above<'a> {
        let has_line = true;
        match line {
            Statement::Empty => self,
            Statement::Label(_) => Above { has_line, ..self },
            Statement::Rules(Ok(rules)) if !self.has_line => Above {
                has_line,
                rules: *rules,
                ..self
            },
            Statement::Rules(_) => Above { has_line, ..self },
            Statement::Directive(header) => Above {
                has_line,
                rules: self.rules,
                methods: self.methods.saturating_add(1),
                name: header.as_ref().map_or(self.name, |it| it.name()),
                first: index.saturating_add(1),
                slots: 0,
            },
            Statement::Instruction(draft) => {
                let slots = self.slots.saturating_add(draft_slots(draft));
                Above {
                    has_line,
                    slots,
                    ..self
                }
            }
        }
    }
}

impl<'a> Lines<'a> {
    /// The lines of a text.
    pub(crate) fn read(alloc: Global, text: &'a str) -> Result<Lines<'a>, AllocError> {
        let texts = text.split('\n').collect(alloc)?;
        let statements = other_statements(alloc, text)?;
        let labels = labels_of(alloc, &statements)?;
        Ok(Lines {
            texts,
            statements,
            labels,
        })
    }

    /// The index of the first line of a method's label.
    fn line_of(&self, methods: usize, name: &[u8]) -> Option<usize> {
        let at = self
            .labels
            .partition_point(|it| it.0 < methods || (it.0 == methods && it.1 < name));
        let label = self.labels.get(at)?;
        if label.0 == methods && label.1 == name {
            Some(label.2)
        } else {
            None
        }
    }

    /// True if a line is an instruction's.
    pub(crate) fn has_instruction(&self) -> bool {
        self.statements.iter().any(is_instruction)
    }

    /// True if an instruction goes to that label.
    pub(crate) fn is_gone_to(&self, name: &[u8]) -> bool {
        self.statements.iter().any(|line| goes_to(line, name))
    }

    /// The lines of the method from an index on.
    fn method_from(&self, first: usize) -> &[Statement<'a>] {
        let rest = &self.statements[first.min(self.statements.len())..];
        let count = rest.iter().position(is_directive).unwrap_or(rest.len());
        &rest[..count.min(rest.len())]
    }

    /// The label of a method's lines that is nearest to a name.
    fn nearest_label<'b>(&'b self, first: usize, name: &[u8]) -> Option<&'b [u8]> {
        let mut found = None;
        for line in self.method_from(first) {
            if let Statement::Label(known) = line {
                found = nearer(found, name, known.as_bytes());
            }
        }
        found.map(|it| it.0)
    }

    /// The index of a line that is no label, but may be meant as one of that name.
    fn meant_line(&self, first: usize, name: &[u8]) -> Option<usize> {
        let count = self.method_from(first).len();
        let lines = self.texts.iter().enumerate().skip(first).take(count);
        for (index, line) in lines {
            if is_meant_as(line, name) {
                return Some(index);
            }
        }
        None
    }

    /// What is wrong with a `.method` line of a right form.
    fn header_fault<'b>(&self, above: Above<'b>, index: usize, header: &Header) -> Found<'b> {
        let limit = capacity_limit(above.rules);
        if METHOD_LIMIT <= above.methods {
            return Some((AsmFault::Range, Place::TooManyMethods));
        }
        let below = self.method_from(index.saturating_add(1));
        if !below.iter().any(is_instruction) {
            return Some((AsmFault::Range, Place::BareMethod));
        }
        if limit < header.in_cap() || limit < header.out_cap() {
            return Some((AsmFault::Range, Place::Capacity(above.rules)));
        }
        if above.name.cmp(header.name()).is_lt() {
            None
        } else {
            Some((AsmFault::Label, Place::NotAbove(above.name)))
        }
    }

    /// What is wrong with an instruction of a right form.
    fn draft_fault<'b>(&'b self, above: Above<'b>, draft: &'b Draft<'_>) -> Found<'b> {
        if above.slots.saturating_add(slots_of(draft)) > SLOT_LIMIT {
            return Some((AsmFault::Range, Place::TooManySlots));
        }
        let name = label_of(draft)?;
        if self.line_of(above.methods, name).is_some() {
            return None;
        }
        let nearest = self.nearest_label(above.first, name);
        let line = self.meant_line(above.first, name);
        Some((AsmFault::Label, Place::NoLabel(name, nearest, line)))
    }

    /// What is wrong with a label.
    fn label_fault<'b>(&self, above: Above<'b>, index: usize, name: &'b [u8]) -> Found<'b> {
        match self.line_of(above.methods, name) {
            Some(first) if first < index => Some((AsmFault::Label, Place::LabelTwice(name, first))),
            Some(_) | None => None,
        }
    }

    /// What is wrong with the line of an index.
    pub(crate) fn fault_at<'b>(
        &'b self,
        above: Above<'b>,
        index: usize,
        line: &'b Statement<'_>,
    ) -> Found<'b> {
        match line {
            Statement::Empty => None,
            Statement::Instruction(Err(AsmFault::Word)) => Some((AsmFault::Word, Place::Itself)),
            Statement::Rules(_) if above.has_line => Some((AsmFault::Word, Place::RulesBelow)),
            Statement::Rules(Err(fault)) | Statement::Directive(Err(fault)) => {
                Some((*fault, Place::Itself))
            }
            Statement::Rules(Ok(_)) => None,
            Statement::Directive(Ok(header)) => self.header_fault(above, index, header),
            Statement::Label(_) | Statement::Instruction(_) if above.methods == 0 => {
                Some((AsmFault::Word, Place::BeforeMethod))
            }
            Statement::Label(name) => self.label_fault(above, index, name.as_bytes()),
            Statement::Instruction(Err(fault)) => Some((*fault, Place::Itself)),
            Statement::Instruction(Ok(draft)) => { self.draft_fault(above, draft) }
        }
    }
}
