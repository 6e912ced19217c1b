// Elimination: the first columns of a matrix are made those of the unit matrix, by adding multiples of rows to rows and nothing else.
ghost use Rattle.std.specs.Prelude.{◌≡◌, ◌<◌, ◌≤◌};
ghost use Rattle.elimination.specs.Matrix.{cell, Found, Led, Cleared, Independent, Reduced};
ghost use Rattle.elimination.specs.Polynomial.{Bytes};
ghost use Rattle.elimination.specs.Shape.{SameShape};

use crate::matrix::Matrix;

impl Matrix {
    // The first row from row `q` on whose entry in column `q` isn't 0.
    fn pivot(&self, q: usize) -> Option<usize>
        requires { q < self.now.width }
        ensures { Found self.now.rows self.now.width q self.now.cells.items result }
    {
        (q..self.rows).find(|i| self.entry(*i, q) != 0)
    }

    // Adds so much of row `p` to row `q` that its entry in column `q` becomes 1.
    fn lead(&mut self, q: usize, p: usize)
        requires places { (q < self.old.rows) × (q < self.old.width) × (p < self.old.rows) }
        requires pivot { 1 ≤ cell self.old.width self.old.cells.items p q }
        ensures shape { SameShape self.old self.new }
        ensures led { Led self.old.width q p self.old.cells.items self.new.cells.items }
    {
        let wanting = byte_field::sum(1, self.entry(q, q));
        let Some(factor) = byte_field::quotient(wanting, self.entry(p, q)) else {
            unreachable()
        };
        self.copy_row(p);
        self.add_copied(q, factor);
    }

    // Adds so much of row `q` to each other row that its entry in column `q` becomes 0, where that of row `q` is 1.
    fn clear_column(&mut self, q: usize)
        requires { (q < self.old.rows) × (q < self.old.width) }
        ensures shape { SameShape self.old self.new }
        ensures cleared { Cleared self.old.rows self.old.width q self.old.cells.items self.new.cells.items }
    {
        self.copy_row(q);
        for i in 0..self.rows {
            if i != q {
                let factor = self.entry(i, q);
                self.add_copied(i, factor);
            }
        }
    }

    // Makes the first columns, one for each row, those of the unit matrix. Since they are independent a pivot is always found.
    pub fn reduce(&mut self)
        requires sizes { self.old.rows ≤ self.old.width }
        requires given { Bytes self.old.cells.items × Independent self.old.rows self.old.width self.old.cells.items }
        ensures shape { SameShape self.old self.new }
        ensures reduced { Reduced self.old.rows self.old.width self.old.rows self.old.cells.items self.new.cells.items }
    {
        for q in 0..self.rows {
            let Some(p) = self.pivot(q) else {
                unreachable()
            };
            self.lead(q, p);
            self.clear_column(q);
        }
    }
}
