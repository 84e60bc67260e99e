//! A class with answers worked out by hand: an object is an account, its first eight bytes are the
//! balance.
use bpf_asm::assemble_class;
use object_store::ObjectName;
use pg_log::{ClassTable, ClientId, Request, RequestNumber, RequestParts};
use std::alloc::Global;
use std::process::Abort;
use verifier::verify;

/// `put` adds the input's byte to the balance, and answers the new balance, as code and as output.
const CLASS: &str = "
.method put rw 1 8
ldxb r6, [r1+0]     ; the amount
mov r7, r3          ; the output
stdw [r10-8], 0
mov r1, 0
mov r2, r10
add r2, -8
mov r3, 8
call 2              ; reads the balance, if there is one
ldxdw r8, [r10-8]
add r8, r6
stxdw [r10-8], r8
stxdw [r7+0], r8
mov r1, 0
mov r2, r10
add r2, -8
mov r3, 8
call 3              ; writes it
mov r1, 8
call 13             ; the output is 8 bytes long
mov r0, r8
exit
";

/// Class 0 is the account's.
pub(crate) fn table<R: Abort>(rt: &R, alloc: Global) -> ClassTable {
    let image = assemble_class(alloc, CLASS).expect(rt, "a class");
    let class = verify(alloc, &image).expect(rt, "a safe class");
    let mut table = ClassTable::new(alloc);
    table.add(class).expect(rt, "room");
    table
}

/// A class, its method and the method's input.
#[derive(Clone, Copy)]
pub(crate) struct Call<'a> {
    pub class: usize,
    pub method: &'a str,
    pub input: &'a [u8],
}

/// Puts 1 to an account.
pub(crate) const PUT: Call<'static> = Call {
    class: 0,
    method: "put",
    input: &[1],
};

/// A client's request of that number, for the object `a`.
pub(crate) fn request<R: Abort>(
    rt: &R,
    alloc: Global,
    client: u32,
    number: u32,
    call: Call<'_>,
) -> Request {
    let parts = RequestParts {
        client: ClientId::new(client).expect(rt, "a client"),
        number: RequestNumber::new(number).expect(rt, "a number"),
        object: ObjectName::new(alloc, "a").expect(rt, "memory"),
        class: call.class,
        method: String::from_str(alloc, call.method).expect(rt, "memory"),
        input: Vec::from_slice(alloc, call.input).expect(rt, "memory"),
    };
    Request::new(alloc, parts).expect(rt, "memory")
}
