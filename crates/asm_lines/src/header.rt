ghost use Rattle.std.specs.Prelude.{◌≡◌};

use crate::target::Name;
use std::marker::Model;

/// The name and numbers of a method by its `.method` line. Contracts see a `MethodHeader`, whose
/// name and numbers are within the limits.
#[derive(Drop)]
pub struct Header<'a> {
    name: Name<'a>,
    flags: u8,
    in_cap: u16,
    out_cap: u16,
}

impl<'a> Model for Header<'a> {
    ghost use Rattle.std.specs.Prelude.{IsTrue};
    ghost use Rattle.asm_lines.specs.Headers.{MethodHeader, is_header};

    ghost Value = { MethodHeader };

    ghost view = { λ h. record { name = h.name; flags = h.flags; in_cap = h.in_cap; out_cap = h.out_cap } };

    ghost invariant = { λ h.
        IsTrue (is_header (record { name = h.name; flags = h.flags; in_cap = h.in_cap; out_cap = h.out_cap })) };
}

impl<'a> Header<'a> {
    ghost use Rattle.std.specs.Prelude.{◌≡◌, IsTrue};
    ghost use Rattle.asm_lines.specs.Headers.{is_header};

    /// A header within the limits.
    pub fn new(name: Name<'a>, flags: u8, in_cap: u16, out_cap: u16) -> Header<'a>
        requires { IsTrue (is_header (record { name = name; flags = flags; in_cap = in_cap; out_cap = out_cap })) }
        ensures { result ≡ record { name = name.entry; flags = flags; in_cap = in_cap; out_cap = out_cap } }
    {
        Header {
            name,
            flags,
            in_cap,
            out_cap,
        }
    }

    /// The method's name.
    pub fn name(&self) -> &[u8]
        ensures name { result.now ≡ self.now.name }
        ensures within { IsTrue (is_header self.now) }
    {
        self.name.as_bytes()
    }

    /// Its flags: 1 reads, 2 writes, 3 both.
    pub fn flags(&self) -> u8
        ensures { result ≡ self.now.flags }
    {
        self.flags
    }

    /// The most bytes that its input may have.
    pub fn in_cap(&self) -> u16
        ensures { result ≡ self.now.in_cap }
    {
        self.in_cap
    }

    /// The most bytes that its output may have.
    pub fn out_cap(&self) -> u16
        ensures { result ≡ self.now.out_cap }
    {
        self.out_cap
    }
}
