//! Reads and changes of an object, as calls of the built-in class `obj`.

ghost use Rattle.std.specs.Prelude.{◌≡◌, ◌++◌, [], codes};
ghost use Rattle.std.specs.Int.{w64, to_le_bytes};
ghost use Rattle.rados_client.specs.Session.{next_request};
ghost use Rattle.rados_client.specs.Promise.{IsCall};
ghost use Rattle.rados_client.specs.ObjectCalls.{attr_input};

use crate::call::Call;
use crate::class_id::ClassId;
use crate::exec_error::ExecError;
use crate::exec_reply::ExecReply;
use crate::session::Session;
use object_store::ObjectName;
use osd::ClusterName;
use std::alloc::Global;
use std::sync::Wait;

/// The class `obj` among the loaded ones.
const OBJECT_CLASS: usize = 1;

impl<N: ClusterName, R: Wait> Session<'_, N, R> {
    /// Reads `length` bytes of the object's data from `offset` on, as many as there are: they are
    /// the output, and their count the code. It is -22 (EINVAL) if the length passes 4,096, -2
    /// (ENOENT) if there is no object. It answers as `exec`.
    pub fn read(
        &mut self,
        alloc: Global,
        object: &ObjectName,
        offset: u64,
        length: u64,
    ) -> Result<ExecReply, ExecError>
        ensures { IsCall N.classes self.old self.new (next_request self.old object.now 1 (codes "read")
            (to_le_bytes w64 offset ++ to_le_bytes w64 length)) result }
    {
        let call = Call {
            object,
            class: ClassId::new(OBJECT_CLASS),
            method: "read",
            head: &offset.to_le_bytes(),
            body: &length.to_le_bytes(),
            tail: &[],
        };
        self.call(alloc, &call)
    }

    /// Writes the bytes into the object's data at `offset`; an absent object is created, and what
    /// lies before the offset is zero. Their count is the code. It is -27 (EFBIG) if the data
    /// would pass 65,536 bytes. More than 4,088 bytes are refused by `InputTooLong`. It answers as
    /// `exec`.
    pub fn write(
        &mut self,
        alloc: Global,
        object: &ObjectName,
        offset: u64,
        bytes: &[u8],
    ) -> Result<ExecReply, ExecError>
        ensures { IsCall N.classes self.old self.new
            (next_request self.old object.now 1 (codes "write") (to_le_bytes w64 offset ++ bytes.now)) result }
    {
        let call = Call {
            object,
            class: ClassId::new(OBJECT_CLASS),
            method: "write",
            head: &offset.to_le_bytes(),
            body: bytes,
            tail: &[],
        };
        self.call(alloc, &call)
    }

    /// The length of the object's data is the code; -2 (ENOENT) if there is no object. It
    /// answers as `exec`.
    pub fn stat(&mut self, alloc: Global, object: &ObjectName) -> Result<ExecReply, ExecError>
        ensures { IsCall N.classes self.old self.new (next_request self.old object.now 1 (codes "stat") []) result }
    {
        self.exec(alloc, object, ClassId::new(OBJECT_CLASS), "stat", &[])
    }

    /// The value of the object's xattr of that name is the output, and its length the code; -2
    /// (ENOENT) if there is no object, -61 (ENODATA) if it has no such xattr. A name of more
    /// than 64 bytes is refused by `InputTooLong`. It answers as `exec`.
    pub fn getxattr(
        &mut self,
        alloc: Global,
        object: &ObjectName,
        name: &str,
    ) -> Result<ExecReply, ExecError>
        ensures { IsCall N.classes self.old self.new
            (next_request self.old object.now 1 (codes "getxattr") name.now) result }
    {
        self.exec(
            alloc,
            object,
            ClassId::new(OBJECT_CLASS),
            "getxattr",
            name.as_bytes(),
        )
    }

    /// Gives the object's xattr of that name the value; an absent object is created. The code is 0,
    /// or -22 (EINVAL) if the name has no byte or more than 64, -27 (EFBIG) if the value has
    /// more than 4,031, -28 (ENOSPC) if the object has 32 others. It answers as `exec`.
    pub fn setxattr(
        &mut self,
        alloc: Global,
        object: &ObjectName,
        name: &str,
        value: &[u8],
    ) -> Result<ExecReply, ExecError>
        ensures { IsCall N.classes self.old self.new
            (next_request self.old object.now 1 (codes "setxattr") (attr_input name.now value.now)) result }
    {
        // No name has more than 64 bytes, and the class refuses a longer one by the first byte
        // alone.
        let count = name.len().min(255) as u8;
        let call = Call {
            object,
            class: ClassId::new(OBJECT_CLASS),
            method: "setxattr",
            head: &[count],
            body: name.as_bytes(),
            tail: value,
        };
        self.call(alloc, &call)
    }

    /// Removes the object; the code is 0, or -2 (ENOENT) if there is none. It answers as `exec`.
    pub fn remove(&mut self, alloc: Global, object: &ObjectName) -> Result<ExecReply, ExecError>
        ensures { IsCall N.classes self.old self.new (next_request self.old object.now 1 (codes "remove") []) result }
    {
        self.exec(alloc, object, ClassId::new(OBJECT_CLASS), "remove", &[])
    }
}
