//! Keys, each with a stretch of one list of numbers.

ghost use Rattle.std.specs.Prelude.{◌≡◌, ◌<◌, ◌≤◌, ◌∷◌, length, slice_index, slice_index_or};
ghost use Rattle.face_list.specs.Tables.{AreStops, stretches};

/// Keys, each with the numbers of its cells. The numbers of all keys stand in one list, one key's behind those of
/// another, and `ends` says where those of each key end.
#[derive(Drop)]
pub struct Table<K> {
    pub keys: Vec<K>,
    pub ends: Vec<u32>,
    pub numbers: Vec<u32>,
}

// Where the numbers of the key of an index begin: where those of the one before end.
fn start_of(ends: &[u32], i: usize) -> usize
    requires { i < length ends.now }
    ensures { result ≡ slice_index (0 ∷ ends.now) i }
{
    if i == 0 { 0 } else { ends[i - 1] as usize }
}

// Where they end, which is where they begin or later, and within all of them.
fn stop_of(ends: &[u32], i: usize, start: usize, count: usize) -> usize
    requires index { i < length ends.now }
    requires stops { AreStops 0 count ends.now }
    requires start { start ≡ slice_index (0 ∷ ends.now) i }
    ensures stop { result ≡ slice_index ends.now i }
    ensures order { start ≤ result }
    ensures within { result ≤ count }
{
    ends[i] as usize
}

impl<K: Copy> Table<K> {
    // The key of an index, and the numbers of its cells.
    pub fn face(&self, i: usize) -> (K, &[u32])
        requires index { i < length self.now.keys.items }
        requires ends { length self.now.ends.items ≡ length self.now.keys.items }
        requires stops { AreStops 0 (length self.now.numbers.items) self.now.ends.items }
        ensures key { result.0 ≡ slice_index_or self.now.keys.items i result.0 }
        ensures numbers { result.1.now
            ≡ slice_index_or (stretches self.now.numbers.items 0 self.now.ends.items) i result.1.now }
    {
        let start = start_of(&self.ends, i);
        let stop = stop_of(&self.ends, i, start, self.numbers.len());
        (self.keys[i], &self.numbers[start..stop])
    }
}
