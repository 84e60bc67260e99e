//! What a request is answered.

ghost use Rattle.std.specs.Prelude.{◌≡◌};
ghost use Rattle.std.specs.Int.{w64, cast_unsigned};

use std::marker::Model;

/// The answer to a request: its code and its output. Contracts see the log's reply.
pub struct CallReply {
    code: i64,
    output: Vec<u8>,
}

impl Drop for CallReply {
    fn drop(self) {
        let CallReply { code: _, output } = self;
        drop(output);
    }
}

impl Model for CallReply {
    ghost use Rattle.std.specs.Int.{w64, cast_unsigned};
    ghost use Rattle.pg_log.specs.Log.{Reply};

    ghost Value = { Reply };

    ghost view = { λ a. record { code = cast_unsigned w64 a.code; output = a.output.items } };
}

impl CallReply {
    /// The answer of that code and output. It takes no memory.
    pub fn new(code: i64, output: Vec<u8>) -> CallReply
        ensures { result ≡ record { code = cast_unsigned w64 code; output = output.items } }
    {
        CallReply { code, output }
    }

    /// The code; a negative one is an error.
    pub fn code(&self) -> i64
        ensures { cast_unsigned w64 result ≡ self.now.code }
    {
        self.code
    }

    /// The output.
    pub fn output(&self) -> &[u8]
        ensures { result.now ≡ self.now.output }
    {
        &self.output
    }
}
