ghost use Rattle.std.specs.Prelude.{◌≡◌, None, IfOk, string_bytes};
ghost use Rattle.std.specs.Option.{option_copied};

use crate::insn::Insn;
use loop_heads::Loops;
use std::alloc::{AllocError, Global};
use std::marker::Model;

/// A method as it is written. Its numbers may be any: a `ClassImage` keeps those that are within
/// the limits. Contracts see a `ClassMethod`.
pub struct Method {
    name: String,
    flags: u8,
    in_cap: u16,
    out_cap: u16,
    instructions: Vec<Insn>,
    loops: Option<Loops>,
}

impl Drop for Method {
    fn drop(self) {
        let Method {
            name,
            flags: _,
            in_cap: _,
            out_cap: _,
            instructions,
            loops,
        } = self;
        drop(name);
        drop(instructions);
        drop(loops);
    }
}

impl Model for Method {
    ghost use Rattle.std.specs.Prelude.{string_bytes};
    ghost use Rattle.bpf_decode.specs.Class.{ClassMethod};

    ghost Value = { ClassMethod };

    ghost view = { λ m. record {
      name = string_bytes m.name;
      flags = m.flags;
      in_cap = m.in_cap;
      out_cap = m.out_cap;
      instructions = m.instructions.items;
      loops = m.loops;
    } };
}

impl Method {
    /// A method of that name, flags (1 reads, 2 writes, 3 both), capacities of input and output in
    /// bytes, and code, which declares no loops.
    pub fn new(
        name: String,
        flags: u8,
        in_cap: u16,
        out_cap: u16,
        instructions: Vec<Insn>,
    ) -> Method
        ensures { result ≡ record {
          name = string_bytes name;
          flags = flags;
          in_cap = in_cap;
          out_cap = out_cap;
          instructions = instructions.items;
          loops = None;
        } }
    {
        Method {
            name,
            flags,
            in_cap,
            out_cap,
            instructions,
            loops: None,
        }
    }

    /// The same method. It is refused for want of memory alone.
    pub fn copy(&self, alloc: Global) -> Result<Method, AllocError>
        ensures { IfOk result (λ m. m ≡ self.now) }
    {
        let name = String::from_str(alloc, self.name())?;
        let instructions = self.instructions.to_vec(alloc)?;
        let loops = copy_loops(alloc, self.loops())?;
        let method = Method::new(name, self.flags, self.in_cap, self.out_cap, instructions);
        Ok(method.with_loops(loops))
    }

    /// The same method with those loops, or with none.
    pub fn with_loops(mut self, loops: Option<Loops>) -> Method
        ensures { result ≡ record {
          name = self.name;
          flags = self.flags;
          in_cap = self.in_cap;
          out_cap = self.out_cap;
          instructions = self.instructions;
          loops = loops;
        } }
    {
        self.loops = loops;
        self
    }

    /// Its name.
    pub fn name(&self) -> &str
        ensures { result.now ≡ self.now.name }
    {
        self.name.as_str()
    }

    /// 1 reads, 2 writes, 3 both.
    pub fn flags(&self) -> u8
        ensures { result ≡ self.now.flags }
    {
        self.flags
    }

    /// The most bytes that its input may have.
    pub fn in_cap(&self) -> u16
        ensures { result ≡ self.now.in_cap }
    {
        self.in_cap
    }

    /// The most bytes that its output may have.
    pub fn out_cap(&self) -> u16
        ensures { result ≡ self.now.out_cap }
    {
        self.out_cap
    }

    /// What it declares of its loops, if it has some.
    pub fn loops(&self) -> Option<&Loops>
        ensures { option_copied result ≡ self.now.loops }
    {
        self.loops.as_ref()
    }

    /// Its code.
    pub fn instructions(&self) -> &[Insn]
        ensures { result.now ≡ self.now.instructions }
    {
        &self.instructions
    }
}

/// The same loops, or none.
fn copy_loops(alloc: Global, loops: Option<&Loops>) -> Result<Option<Loops>, AllocError>
    ensures { IfOk result (λ l. l ≡ option_copied loops.entry) }
{
    match loops {
        None => Ok(None),
        Some(loops) => Ok(Some(loops.copy(alloc)?)),
    }
}
