use shared_map::SharedMap;
use std::alloc::Global;
use std::process::Abort;

/// Keys and values, not in order.
static ENTRIES: [(&[u8], u8); 5] = [(b"ab", 1), (b"b", 2), (b"", 3), (b"a", 4), (b"abc", 5)];

/// Some bytes, the value of that key, and the least key above them.
static READS: [(&[u8], Option<u8>, Option<&[u8]>); 8] = [
    (b"", Some(3), Some(b"a")),
    (b"a", Some(4), Some(b"ab")),
    (b"aa", None, Some(b"ab")),
    (b"ab", Some(1), Some(b"abc")),
    (b"abc", Some(5), Some(b"b")),
    (b"abd", None, Some(b"b")),
    (b"b", Some(2), None),
    (b"\xff", None, None),
];

fn few<R: Abort>(rt: &R, alloc: Global) -> SharedMap<u8> {
    let mut map = SharedMap::new();
    for (key, value) in &ENTRIES {
        map.set(alloc, *key, *value).expect(rt, "memory");
    }
    map
}

/// True if the lookups of some bytes give that value and that next key.
fn is_read(map: &SharedMap<u8>, key: &[u8], value: Option<u8>, above: Option<&[u8]>) -> bool {
    map.get(key).copied() == value && map.key_above(key) == above
}

/// True if the key at a place is that one, with that value.
fn is_at(map: &SharedMap<u8>, place: usize, key: &[u8], value: u8) -> bool {
    match map.nth(place) {
        None => false,
        Some((found, its_value)) => found == key && *its_value == value,
    }
}

/// True if each row is read as it says, and the keys stand in their order.
fn is_few(map: &SharedMap<u8>) -> bool {
    let mut right = map.len() == 5 && map.nth(5).is_none();
    for (key, value, above) in &READS {
        right = right && is_read(map, *key, *value, *above);
    }
    right && is_at(map, 0, b"", 3) && is_at(map, 2, b"ab", 1) && is_at(map, 4, b"b", 2)
}

/// Sets a key anew and removes two. True if a copy made before stays as it was.
fn copy_stays<R: Abort>(rt: &R, alloc: Global, map: &mut SharedMap<u8>) -> bool {
    let copy = map.copy().expect(rt, "memory");
    map.set(alloc, b"b", 9).expect(rt, "memory");
    map.remove(alloc, b"ab").expect(rt, "memory");
    map.remove(alloc, b"none").expect(rt, "memory");
    let stays = is_few(&copy);
    drop(copy);
    stays && is_read(map, b"ab", None, Some(b"abc")) && is_at(map, 3, b"b", 9) && map.len() == 4
}

#[test]
fn each_call(rt: HostRuntime) {
    let alloc = rt.alloc();
    let mut map = few(&rt, alloc);
    let stays = copy_stays(&rt, alloc, &mut map);
    drop(map);
    assert!(rt; stays);
}

/// The number of keys of the high maps.
const MANY: u16 = 1024;

/// A map of the numbers below `MANY`, set in the order of the numbers xor that mask.
fn many<R: Abort>(rt: &R, alloc: Global, mask: u16) -> SharedMap<u16> {
    let mut map = SharedMap::new();
    for n in 0..MANY {
        map.set(alloc, &(n ^ mask).to_be_bytes(), n)
            .expect(rt, "memory");
    }
    map
}

/// Rising and falling keys: the mask, and the last one set.
static ORDERS: [(u16, [u8; 2]); 2] = [(0, [3, 255]), (MANY - 1, [0, 0])];

/// True if a map has all numbers, that key the last one set, and the longest way down is short: a
/// tree of ten nodes on each way has at most 1,023 keys.
fn is_low(map: &SharedMap<u16>, key: [u8; 2]) -> bool {
    let (len, height) = (map.len(), map.height());
    len == 1024 && height >= 11 && height <= 15 && map.get(&key).copied() == Some(1023)
}

/// Removes all numbers but the last eight. True if the tree is low then.
fn is_low_when_cut<R: Abort>(rt: &R, alloc: Global, map: &mut SharedMap<u16>) -> bool {
    for n in 0..MANY - 8 {
        map.remove(alloc, &n.to_be_bytes()).expect(rt, "memory");
    }
    map.len() == 8 && map.height() <= 5 && map.height() >= 4
}

#[test]
fn maps_stay_low(rt: HostRuntime) {
    let alloc = rt.alloc();
    for (mask, last) in &ORDERS {
        let mut map = many(&rt, alloc, *mask);
        let low = is_low(&map, *last) && is_low_when_cut(&rt, alloc, &mut map);
        drop(map);
        assert!(rt; low);
    }
}
