//! Calls of helpers, one after the other, for client 7.
//!
//! `on OBJECT` puts an object in place. Any other line has a helper and its arguments; its answer
//! and the bytes that it copies; and the object afterwards, or `?` for one that no word tells, if
//! it isn't as it was. An argument is a number `=N`, the bytes `<BYTES`, or room `>N` for that many.

/// On no object. Each leaves none.
pub const ABSENT: &str = "\
on none
stat | -2
read =0 >4 | -2
read =1 >0 | -2
write =65537 <- | -27
write =65536 <a | -27
write =18446744073709551615 <a | -27
truncate =0 | -2
truncate =2 | -2
truncate =65537 | -27
remove | -2
getxattr <n >9 | -2
getxattr <- >9 | -22
getxattr <@64 >4 | -2
getxattr <@65 >9 | -22
setxattr <- <v | -22
setxattr <@65 <v | -22
rmxattr <n | -2
rmxattr <- | -22
rmxattr <@65 | -22
map_get <k >9 | -2
map_get <- >4 | -22
map_get <@64 >4 | -2
map_get <@65 >9 | -22
map_set <- <v | -22
map_set <@65 <v | -22
map_rm <k | -2
map_rm <- | -22
map_rm <@65 | -22
map_next <- >9 | -2
map_next <@64 >1 | -2
map_next <@65 >9 | -22
out_len =4096 | 0
caller | 7
stat | -2
";

/// Each creates the object.
pub const CREATES: &str = "\
on none
write =0 <- | 0 | -
on none
write =2 <n | 1 | 0x00006e
on none
write =65536 <- | 0 | -
on none
setxattr <n <- | 0 | -/n=
on none
setxattr <nm <3 | 0 | -/nm=3
on none
setxattr <@64 <@64 | 0 | -/@64=@64
on none
map_set <k <- | 0 | -//k=
on none
map_set <b <23 | 0 | -//b=23
on none
create =0 | 0 | -
on none
create =1 | 0 | -
";

/// Data: cut bytes aren't seen again, nor what a removed object held in a new one of its name.
pub const DATA: &str = "\
on hello/n=value/a=1,c=22
stat | 5
caller | 7
read =1 >3 | 3 ell
read =3 >8 | 2 lo
read =5 >4 | 0
read =9 >8 | 0
read =18446744073709551615 >4 | 0
read =0 >0 | 0
create =0 | 0
create =1 | -17
create =18446744073709551615 | -17
truncate =65537 | -27
write =65534 <123 | -27
write =65535 <ab | -27
write =18446744073709551615 <n | -27
write =4 <123 | 3 | hell123/n=value/a=1,c=22
on hello/n=value/a=1,c=22
truncate =7 | 0 | 0x68656c6c6f0000/n=value/a=1,c=22
truncate =2 | 0 | he/n=value/a=1,c=22
read =1 >3 | 1 e
truncate =4 | 0 | 0x68650000/n=value/a=1,c=22
remove | 0 | none
create =1 | 0 | -
create =1 | -17
stat | 0
write =4094 <abcd | 4 | ?
stat | 4098
read =4094 >4 | 4 abcd
read =4096 >9 | 2 cd
read =0 >2 | 2 0x0000
read =4098 >4 | 0
truncate =4095 | 0
truncate =4098 | 0
read =4094 >4 | 4 0x61000000
write =4096 <- | 0
stat | 4098
truncate =65536 | 0
stat | 65536
truncate =65537 | -27
write =65535 <yz | -27
write =65535 <z | 1
read =65534 >9 | 2 0x007a
stat | 65536
remove | 0 | none
stat | -2
create =1 | 0 | -
stat | 0
read =4094 >4 | 0
";

/// Xattrs. One is no key.
pub const XATTRS: &str = "\
on hello/n=value/a=1,c=22
getxattr <n >8 | 5 value
getxattr <n >5 | 5 value
getxattr <n >4 | -34
getxattr <m >8 | -61
getxattr <N >9 | -61
getxattr <a >9 | -61
getxattr <@64 >4 | -61
getxattr <- >8 | -22
getxattr <@65 >9 | -22
setxattr <- <v | -22
setxattr <@65 <v | -22
rmxattr <a | -61
rmxattr <- | -22
rmxattr <@65 | -22
setxattr <n <123 | 0 | hello/n=123/a=1,c=22
setxattr <m <- | 0 | hello/n=123,m=/a=1,c=22
getxattr <m >0 | 0
getxattr <n >0 | -34
setxattr <@64 <w | 0 | hello/n=123,m=,@64=w/a=1,c=22
getxattr <@64 >9 | 1 w
map_get <n >9 | -61
rmxattr <n | 0 | hello/m=,@64=w/a=1,c=22
getxattr <n >9 | -61
rmxattr <n | -61
getxattr <@64 >9 | 1 w
";

/// Keys: the next one from the beginning, between keys, at one, and past the last; a key before a
/// longer one, for which a byte too little is no room. A key is no xattr.
pub const KEYS: &str = "\
on hello/n=value/a=1,c=22
map_get <c >2 | 2 22
map_get <c >1 | -34
map_get <b >2 | -61
map_get <- >9 | -22
map_get <@64 >4 | -61
map_get <@65 >9 | -22
map_set <- <23 | -22
map_set <@65 <v | -22
map_rm <b | -61
map_rm <- | -22
map_rm <@65 | -22
map_next <- >1 | 1 a
map_next <a >1 | 1 c
map_next <b >1 | 1 c
map_next <c >8 | -61
map_next <a >0 | -34
map_next <@64 >9 | 1 a
map_next <@65 >9 | -22
map_set <b <23 | 0 | hello/n=value/a=1,b=23,c=22
map_set <b <- | 0 | hello/n=value/a=1,b=,c=22
map_get <b >0 | 0
map_rm <a | 0 | hello/n=value/b=,c=22
on h//a=0x01,bc=0x02,d=0x03
map_next <- >2 | 1 a
map_next <a >2 | 2 bc
map_next <b >2 | 2 bc
map_next <bc >2 | 1 d
map_next <d >1 | -61
map_next <a >1 | -34
on none
map_set <d <four | 0 | -//d=four
map_set <b <two | 0 | -//d=four,b=two
map_get <d >4 | 4 four
map_get <d >3 | -34
map_get <c >9 | -61
getxattr <d >9 | -61
map_next <- >9 | 1 b
map_next <a >9 | 1 b
map_next <b >9 | 1 d
map_next <bb >9 | 1 d
map_next <d >9 | -61
map_next <@64 >9 | 1 b
map_set <dd <- | 0 | -//d=four,b=two,dd=
map_next <d >2 | 2 dd
map_next <d >1 | -34
map_rm <c | -61
map_rm <b | 0 | -//d=four,dd=
map_next <- >9 | 1 d
remove | 0 | none
map_next <- >9 | -2
on h
map_next <@64 >1 | -61
map_next <- >1 | -61
";

/// What is compared and copied: bytes have no sign, and a proper beginning is below.
pub const BYTES: &str = "\
on none
compare <- <- | 0
compare <- <a | -1
compare <a <- | 1
compare <a <a | 0
compare <ab <a | 1
compare <a <b | -1
compare <b <ab | 1
compare <0x7f <0x80 | -1
compare <0xff <0x00 | 1
compare <0x0000 <0x00 | 1
compare <@64 <@65 | -1
copy >4 <abcd | 4 abcd
copy >9 <abcd | 4 abcd
copy >3 <abcd | -34
copy >0 <- | 0
copy >0 <a | -34
copy >8 <- | 0
copy >64 <@64 | 64 @64
copy >65 <@65 | 65 @65
copy >64 <@65 | -34
";

/// The next xattr, as the next key. A key is none.
pub const NAMES: &str = "\
on hello/n=value/a=1,c=22
xattr_next <- >1 | 1 n
xattr_next <a >9 | 1 n
xattr_next <n >9 | -61
xattr_next <m >0 | -34
xattr_next <@64 >9 | 1 n
xattr_next <@65 >9 | -22
on none
xattr_next <- >9 | -2
xattr_next <@65 >9 | -22
on h/a=1,bc=2,d=3
xattr_next <- >2 | 1 a
xattr_next <a >2 | 2 bc
xattr_next <a >1 | -34
xattr_next <b >2 | 2 bc
xattr_next <bc >2 | 1 d
xattr_next <d >1 | -61
";

/// A value of 4,096 bytes, and of one more: after the name is tested, and before room for it is.
pub const LONG: &str = "\
on none
setxattr <n <@4097 | -27
map_set <k <@4097 | -27
setxattr <- <@4097 | -22
map_set <@65 <@4097 | -22
stat | -2
setxattr <n <@4096 | 0 | -/n=@4096
setxattr <n <@4097 | -27
map_set <n <@4096 | 0 | -/n=@4096/n=@4096
on all-xattrs
setxattr <x <v | -28
setxattr <x <@4097 | -27
";

/// On an object of 32 xattrs, and on one of 1,024 keys. A refused call changes no value, and a name
/// that is there may be set anew.
pub const FULL: &str = "\
on all-xattrs
setxattr <kkkkkkkkkkkkkkkkkkkkkkkkkkkkkkkkkkkkkkkkkkkkkkkkkkkkkkkkkkkkkkBA <v | -28
getxattr <kkkkkkkkkkkkkkkkkkkkkkkkkkkkkkkkkkkkkkkkkkkkkkkkkkkkkkkkkkkkkkBA >9 | -61
getxattr <kkkkkkkkkkkkkkkkkkkkkkkkkkkkkkkkkkkkkkkkkkkkkkkkkkkkkkkkkkkkkkA` >9 | -34
getxattr <kkkkkkkkkkkkkkkkkkkkkkkkkkkkkkkkkkkkkkkkkkkkkkkkkkkkkkkkkkkkkkA` >4095 | -34
setxattr <kkkkkkkkkkkkkkkkkkkkkkkkkkkkkkkkkkkkkkkkkkkkkkkkkkkkkkkkkkkkkkA` <new | 0
getxattr <kkkkkkkkkkkkkkkkkkkkkkkkkkkkkkkkkkkkkkkkkkkkkkkkkkkkkkkkkkkkkkA` >9 | 3 new
on all-keys
map_set <kkkkkkkkkkkkkkkkkkkkkkkkkkkkkkkkkkkkkkkkkkkkkkkkkkkkkkkkkkkkkkaA <v | -28
map_get <kkkkkkkkkkkkkkkkkkkkkkkkkkkkkkkkkkkkkkkkkkkkkkkkkkkkkkkkkkkkkkaA >9 | -61
map_set <kkkkkkkkkkkkkkkkkkkkkkkkkkkkkkkkkkkkkkkkkkkkkkkkkkkkkkkkkkkkkkAA <new | 0
map_get <kkkkkkkkkkkkkkkkkkkkkkkkkkkkkkkkkkkkkkkkkkkkkkkkkkkkkkkkkkkkkkAA >9 | 3 new
map_next <kkkkkkkkkkkkkkkkkkkkkkkkkkkkkkkkkkkkkkkkkkkkkkkkkkkkkkkkkkkkkk`` >64 | -61
map_rm <kkkkkkkkkkkkkkkkkkkkkkkkkkkkkkkkkkkkkkkkkkkkkkkkkkkkkkkkkkkkkkAA | 0
map_set <kkkkkkkkkkkkkkkkkkkkkkkkkkkkkkkkkkkkkkkkkkkkkkkkkkkkkkkkkkkkkkaA <v | 0
map_next <kkkkkkkkkkkkkkkkkkkkkkkkkkkkkkkkkkkkkkkkkkkkkkkkkkkkkkkkkkkkkk`` >64 \
    | 64 kkkkkkkkkkkkkkkkkkkkkkkkkkkkkkkkkkkkkkkkkkkkkkkkkkkkkkkkkkkkkkaA
";
