// Reads of a matrix, and sums of whole rows.
ghost use Rattle.std.specs.Prelude.{◌≡◌, ℕ, ◌<◌, slice_index};
ghost use Rattle.elimination.specs.Matrix.{cell, RowAdded};
ghost use Rattle.elimination.specs.Shape.{SameShape};

use crate::matrix::Matrix;

impl Matrix {
    // The entry in row `i` and column `t`.
    pub fn entry(&self, i: usize, t: usize) -> u8
        requires { (i < self.now.rows) × (t < self.now.width) }
        ensures { result ≡ cell self.now.width self.now.cells.items i t }
    {
        self.cells[i * self.width + t]
    }

    // Copies row `i`, all of it.
    pub fn copy_row(&mut self, i: usize)
        requires { i < self.old.rows }
        ensures shape { SameShape self.old self.new }
        ensures cells { self.new.cells.items ≡ self.old.cells.items }
        ensures copied { (t : ℕ) → t < self.old.width → slice_index self.new.copied.items t ≡ cell self.old.width self.old.cells.items i t }
    {
        let start = i * self.width;
        self.copied
            .copy_from_slice(&self.cells[start..start + self.width]);
    }

    // Adds `factor` times the copied row to row `i`; the other rows stay as they are.
    pub fn add_copied(&mut self, i: usize, factor: u8)
        requires { i < self.old.rows }
        ensures shape { SameShape self.old self.new }
        ensures copied { self.new.copied.items ≡ self.old.copied.items }
        ensures added { RowAdded self.old.width i factor self.old.copied.items self.old.cells.items self.new.cells.items }
    {
        let start = i * self.width;
        byte_field::add_scaled(
            &mut self.cells[start..start + self.width],
            factor,
            &self.copied,
        );
    }
}
