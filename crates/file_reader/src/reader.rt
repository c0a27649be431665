// The reader: one walks a file from its first byte, and every number is drawn from it by `draw`, which moves it past that
// number. After a refusal no number is drawn, and the reader that was lent to a public draw stands where it stood.
ghost use Rattle.std.specs.Prelude.{◌≡◌, true, ◌≤◌, ◌<◌, IfOk, IfErr};
ghost use Rattle.cube.specs.Cube.{taps, size as size_of};
ghost use Rattle.varint.specs.Varint.{varint};
ghost use Rattle.point_list.specs.PointList.{point_list, mark_drawn};
ghost use Rattle.file_reader.specs.Progress.{taps_of, beside, outcome_of, numbers};
ghost use Rattle.file_reader.specs.Reader.{left, drawn_of, marked_of, DrawsPoint};

use cube::mask::Mask;
use cube::{size, valid_taps};
use refusal::Refusal;
use varint::varint_at;

// The bytes of a file, and the place of the next number.
#[derive(Clone, Copy)]
pub struct Reader<'a> {
    pub src: &'a [u8],
    pub at: usize,
}

impl<'a> Reader<'a> {
    // A reader at the first byte of a file.
    pub fn new(src: &'a [u8]) -> Reader<'a>
        ensures { (result.src ≡ src.entry) × (result.at ≡ 0) }
    {
        Reader { src, at: 0 }
    }

    // Draws the next number.
    pub fn draw(&mut self) -> Result<usize, Refusal>
        ensures src { self.new.src ≡ self.old.src }
        ensures drawn { drawn_of self.new result ≡ varint (left self.old) }
        ensures stays { IfErr result (λ x. self.new ≡ self.old) }
    {
        let number = varint_at(self.src, self.at)?;
        self.at = number.next;
        Ok(number.value)
    }

    // Draws n.
    #[tactic(auto, using(crate::proofs::Draws::by_number))]
    pub fn draw_taps(&mut self) -> Result<usize, Refusal>
        ensures src { self.new.src ≡ self.old.src }
        ensures drawn { drawn_of self.new result ≡ taps_of (left self.old) }
        ensures taps { IfOk result (λ n. taps n ≡ true) }
        ensures stays { IfErr result (λ x. self.new ≡ self.old) }
    {
        let mut reader = *self;
        let n = reader.draw()?;
        if !valid_taps(n) {
            return Err(Refusal::Taps);
        }
        *self = reader;
        Ok(n)
    }

    // Draws a point below `size`: `prev` and a difference of at least `least`.
    #[tactic(auto, using(crate::proofs::Draws::by_number))]
    fn draw_point(&mut self, size: usize, prev: usize, least: usize) -> Result<usize, Refusal>
        requires { prev ≤ size }
        ensures src { self.new.src ≡ self.old.src }
        ensures drawn { DrawsPoint size prev least (left self.old) (drawn_of self.new result) }
        ensures below { IfOk result (λ p. p < size) }
    {
        let difference = self.draw()?;
        if difference < least || difference >= size - prev {
            return Err(Refusal::Range);
        }
        Ok(prev + difference)
    }

    // Draws a list of points of `n` taps, and sets each in `out`.
    #[tactic(auto, using(crate::proofs::Draws::by_number))]
    pub fn draw_list(&mut self, n: usize, out: &mut Mask) -> Result<(), Refusal>
        requires { taps n ≡ true }
        ensures src { self.new.src ≡ self.old.src }
        ensures drawn { marked_of self.new out.new result ≡ mark_drawn out.old (point_list (size_of n) (left self.old)) }
        ensures stays { IfErr result (λ x. self.new ≡ self.old) }
    {
        let size = size(n);
        let mut reader = *self;
        let count = reader.draw()?;
        if count > size {
            return Err(Refusal::Range);
        }
        let mut prev = 0;
        let mut least = 0;
        for _ in 0..count {
            prev = reader.draw_point(size, prev, least)?;
            least = 1;
            out[prev] = 1;
        }
        *self = reader;
        Ok(())
    }
}

// What the numbers of a file say: n, and the place behind them.
#[derive(Clone, Copy, Debug, PartialEq, Eq)]
pub struct Progress {
    pub n: usize,
    pub next: usize,
}

// Draws every number of a file, each completely before the next: n, the list of S, the list of f.
#[tactic(auto, using(crate::proofs::Numbers::in_order))]
pub fn draw_all(file: &[u8], set: &mut Mask, table: &mut Mask) -> Result<Progress, Refusal>
    ensures { beside table.new (beside set.new (outcome_of file.now result))
        ≡ numbers set.old table.old file.now }
{
    let mut reader = Reader::new(file);
    let n = reader.draw_taps()?;
    reader.draw_list(n, set)?;
    reader.draw_list(n, table)?;
    Ok(Progress { n, next: reader.at })
}
