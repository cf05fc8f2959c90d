ghost use Rattle.std.specs.Prelude.{◌≡◌, ◌<◌, ◌%◌};

/// The remainder of a hash by a count: of slots, workers, nodes or backends.
///
/// The counts that are met most stand here as constants, by which a compiler multiplies. To divide 64 bits by a number that is
/// only known at run time takes a processor up to ninety cycles.
pub fn remainder(hash: u64, count: u64) -> u64
    requires { 0 < count }
    ensures value { result ≡ hash % count }
    ensures below { result < count }
{
    match count {
        1 => 0,
        2 => hash % 2,
        3 => hash % 3,
        4 => hash % 4,
        5 => hash % 5,
        6 => hash % 6,
        7 => hash % 7,
        8 => hash % 8,
        9 => hash % 9,
        10 => hash % 10,
        11 => hash % 11,
        12 => hash % 12,
        13 => hash % 13,
        14 => hash % 14,
        15 => hash % 15,
        16 => hash % 16,
        251 => hash % 251,
        1021 => hash % 1021,
        8191 => hash % 8191,
        65537 => hash % 65537,
        _ => hash % count,
    }
}
