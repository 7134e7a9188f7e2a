// An area of the store: reading and writing its words. Code above names an area of `areas`, never a number. A loop over an area goes by places, here
// and above: the laws (`at`, `all_from`, `from`) speak of a word by its place, and a loop that writes the store lends no slice of it.
ghost use Rattle.std.specs.Prelude.{◌≡◌, ◌+◌, ◌-◌, ◌≤◌, ◌<◌, length};
ghost use Rattle.store.specs.Area.{◌upto◌, area, at, put, put_run, blank};
ghost use Rattle.store.specs.Ranks.{moved, inserted};

// A run of words: where it begins and how many there are.
#[derive(Clone, Copy, PartialEq, Eq)]
pub struct Area {
    pub base: usize,
    pub size: usize,
}

// An area and the largest number that a word of it may hold.
#[derive(Clone, Copy, PartialEq, Eq)]
pub struct Range {
    pub within: Area,
    pub most: usize,
}

impl Area {
    // The area with the largest number that a word of it may hold.
    pub fn up_to(self, most: usize) -> Range
        ensures { result ≡ self upto most }
    {
        Range { within: self, most }
    }

    // All its words.
    pub fn words<'a>(self, s: &'a [u32]) -> &'a [u32]
        requires { self.base + self.size ≤ length s.now }
        ensures words { result.now ≡ area self s.now }
        ensures long { length result.now ≡ self.size }
    {
        &s[self.base..self.base + self.size]
    }

    // Word i.
    #[tactic(auto, unfolding(crate::specs::Area::at))]
    pub fn at(self, s: &[u32], i: usize) -> u32
        requires fits { self.base + self.size ≤ length s.now }
        requires inside { i < self.size }
        ensures { result ≡ at self i s.now }
    {
        self.words(s)[i]
    }

    // Makes word i x.
    pub fn put(self, s: &mut [u32], i: usize, x: u32)
        requires fits { self.base + self.size ≤ length s.old }
        requires inside { i < self.size }
        ensures { s.new ≡ put self i x s.old }
    {
        s[self.base + i] = x;
    }

    // Makes every word 0.
    pub fn blank(self, s: &mut [u32])
        requires { self.base + self.size ≤ length s.old }
        ensures { s.new ≡ blank self s.old }
    {
        s[self.base..self.base + self.size].fill(0);
    }

    // Copies a lent list in, from word `from` on: word by word, as `put_run` and its laws go.
    pub fn put_run(self, s: &mut [u32], from: usize, list: &[u32])
        requires fits { self.base + self.size ≤ length s.old }
        requires inside { from + length list.now ≤ self.size }
        ensures { s.new ≡ put_run self from list.now s.old }
    {
        for (i, x) in list.iter().enumerate() {
            s[self.base + from + i] = *x;
        }
    }

    // Moves the words `from`, .., `to` - 1 up by one, the last one first.
    fn move_up(self, s: &mut [u32], from: usize, to: usize)
        requires fits { self.base + self.size ≤ length s.old }
        requires upwards { from ≤ to }
        requires inside { to < self.size }
        ensures { s.new ≡ moved self from (to - from) s.old }
    {
        for i in (from..to).rev() {
            s[self.base + i + 1] = s[self.base + i];
        }
    }

    // Puts x in at `rank` of `count` words that are in order: those behind it move up.
    pub fn insert(self, s: &mut [u32], rank: usize, count: usize, x: u32)
        requires fits { self.base + self.size ≤ length s.old }
        requires ranked { rank ≤ count }
        requires inside { count < self.size }
        ensures { s.new ≡ inserted self rank count x s.old }
    {
        self.move_up(s, rank, count);
        self.put(s, rank, x);
    }
}
