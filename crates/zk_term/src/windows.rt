// The upper window: a grid of characters with a cursor.

ghost use Rattle.std.specs.Prelude.{◌≡◌, ◌≤◌, ◌<◌, ◌&&◌, ◌*◌, ℕ, IfOk, if◌then◌else◌, length, map, nat_le, nat_lt};
ghost use Rattle.std.specs.Prelude.{slice_index_or, vec_capacity};
ghost use Rattle.zk_term.specs.Windows.{first_windows, homed, past, kept_if_lower, split, window_selected, cleared};
ghost use Rattle.zk_term.specs.Windows.{unsplit, forgotten, line_erased, cursor_set, next_row, character_put};
ghost use Rattle.zk_term.specs.Windows.{character_printed, row_text_of, row_text, tallest_height, tallest_row_text};
ghost use Rattle.zk_term.specs.Windows.{character_of, is_space, row_cells, row_cells_of, tallest_row_cells};
ghost use Rattle.zk_term.specs.Windows.{without_last};
ghost use Rattle.zk_term.specs.Styles.{style_set};
ghost use Rattle.zk_term.specs.Grid.{blank, emptied, is_blank};
ghost use Rattle.zk_term.specs.Places.{cell_number, cells_of};

use crate::style::Style;
use std::alloc::{AllocError, Global};
use std::marker::Model;

/// So many rows has the grid.
pub const ROWS: usize = 255;
/// So many columns has the grid, whatever the width of the screen.
pub const COLUMNS: usize = 255;

/// A window of the screen (Z-Machine Standards Document 1.1, section 8.6).
#[derive(Clone, Copy, Drop)]
pub enum Window {
    Lower,
    Upper,
}

/// A cell of the upper window: a character, and the text style that it was printed in. An empty one is a space in
/// roman.
#[derive(Clone, Copy, PartialEq, Eq, Drop)]
pub struct Cell {
    pub character: char,
    pub style: Style,
}

impl Cell {
    /// An empty cell.
    fn blank() -> Cell
        ensures { result ≡ blank }
    {
        Cell {
            character: ' ',
            style: Style::roman(),
        }
    }

    /// Whether the cell is empty.
    fn is_blank(self) -> bool
        ensures { result ≡ is_blank self }
    {
        let style = self.style;
        self.character == ' ' && !(style.reverse || style.bold || style.italic || style.fixed)
    }
}

/// The upper window of the screen (Z-Machine Standards Document 1.1, sections 8.6 and 8.7): a grid of 255 rows
/// and of as many columns as a line of the screen has, numbered from 1 on, of which as many rows are shown as its
/// height says, and a cursor, which may stand past the last column or row. Of grids that were taken away, or made
/// lower, the tallest is kept until it is forgotten, so that what stood there for a moment alone can be drawn.
/// Contracts see each cell by its row and column. It takes memory when it is made, and none later; what is taken is
/// first written where rows are first shown, or first gone.
#[derive(Drop)]
pub struct Windows {
    // the rows that were ever shown, one after another, with spaces alone in those that are not shown now
    cells: Vec<Cell>,
    height: u8,
    width: u8,
    row: u16,
    column: u16,
    selected: Window,
    style: Style,
    fixed_font: bool,
    // the rows of the tallest grid that is gone, one after another
    gone: Vec<Cell>,
    gone_height: u8,
}

impl Model for Windows {
    ghost use Rattle.zk_term.specs.Windows.{Windows as AllWindows};
    ghost use Rattle.zk_term.specs.GridCode.{windows_code};

    ghost Value = { AllWindows };

    ghost coded = { windows_code };

    ghost use Rattle.zk_term.specs.WindowsView.{windows_of, IsKept};

    ghost view = { windows_of };

    ghost invariant = { IsKept };
}

/// Empties cells from one place up to another, which is none of them.
fn empty(cells: &mut Vec<Cell>, from: usize, to: usize)
    ensures len { length cells.new.items ≡ length cells.old.items }
    ensures room { vec_capacity cells.new ≡ vec_capacity cells.old }
    ensures value { (k : ℕ) → slice_index_or cells.new.items k blank
        ≡ (if nat_le from k && nat_lt k to then blank else slice_index_or cells.old.items k blank) }
{
    let end = to.min(cells.len());
    for k in from..end {
        cells[k] = Cell::blank();
    }
}

/// Empties the rows up to a height.
fn empty_shown(cells: &mut Vec<Cell>, height: u8)
    ensures len { length cells.new.items ≡ length cells.old.items }
    ensures room { vec_capacity cells.new ≡ vec_capacity cells.old }
    ensures value { (k : ℕ) → slice_index_or cells.new.items k blank
        ≡ (if nat_le 0 k && nat_lt k (height * 255) then blank else slice_index_or cells.old.items k blank) }
{
    empty(cells, 0, height as usize * COLUMNS);
}

/// Puts spaces after the last cell, up to a place.
fn fill_up(cells: &mut Vec<Cell>, to: usize)
    requires { to ≤ vec_capacity cells.old }
    ensures len { to ≤ length cells.new.items }
    ensures room { vec_capacity cells.old ≤ vec_capacity cells.new }
    ensures same { (k : ℕ) → slice_index_or cells.new.items k blank ≡ slice_index_or cells.old.items k blank }
{
    if cells.len() < to {
        // there is room, so this does not fail
        let _ = cells.resize(to, Cell::blank());
    }
}

/// The cells of a row up to the last that has a character other than a space.
fn without_last_spaces(row: &[Cell]) -> &[Cell]
    ensures value { map character_of result.now ≡ without_last is_space (map character_of row.now) }
    ensures within { length result.now ≤ length row.now }
{
    let mut end = row.len();
    while end > 0 && row[end - 1].character == ' ' {
        end -= 1;
    }
    &row[..end]
}

/// The cells of a row without the empty ones at its end.
fn without_last_empty(row: &[Cell]) -> &[Cell]
    ensures value { result.now ≡ without_last is_blank row.now }
    ensures within { length result.now ≤ length row.now }
{
    let mut end = row.len();
    while end > 0 && row[end - 1].is_blank() {
        end -= 1;
    }
    &row[..end]
}

/// Where a cell stands among all.
fn place(row: u16, column: u16) -> usize
    requires row { 1 ≤ row }
    requires column { 1 ≤ column }
    ensures { result ≡ cell_number row column }
{
    (row as usize - 1) * COLUMNS + (column as usize - 1)
}

/// The cells of a row, from 1 on, and none past a height, where all are empty.
fn row_of(cells: &[Cell], height: u8, row: u8) -> &[Cell]
    requires row { 1 ≤ row }
    requires shown { height * 255 ≤ length cells.now }
    requires blank { (k : ℕ) → height * 255 ≤ k → slice_index_or cells.now k blank ≡ blank }
    ensures text { without_last is_space (map character_of result.now) ≡ row_text_of (cells_of cells.now) row }
    ensures cells { without_last is_blank result.now ≡ row_cells_of (cells_of cells.now) row }
    ensures within { length result.now ≤ 255 }
{
    if height < row {
        return &[];
    }
    let start = place(row as u16, 1);
    &cells[start..start + COLUMNS]
}

impl Windows {
    /// No row is shown, and the lower window is selected. A line of the screen has so many columns.
    pub fn new(alloc: Global, width: u8) -> Result<Windows, AllocError>
        ensures { IfOk result (λ w. w ≡ first_windows width) }
    {
        let cells = Vec::with_capacity(alloc, ROWS * COLUMNS)?;
        let gone = Vec::with_capacity(alloc, ROWS * COLUMNS)?;
        Ok(Windows {
            cells,
            height: 0,
            width,
            row: 1,
            column: 1,
            selected: Window::Lower,
            style: Style::roman(),
            fixed_font: false,
            gone,
            gone_height: 0,
        })
    }

    /// The cursor goes to the top left.
    fn home(&mut self)
        ensures { self.new ≡ homed self.old }
    {
        self.row = 1;
        self.column = 1;
    }

    /// Keeps what stands in the window, before it gets a lower height, where nothing taller is gone.
    fn keep_if_lower(&mut self, height: u8)
        ensures { self.new ≡ kept_if_lower height self.old }
    {
        if height < self.height && self.gone_height <= self.height {
            self.gone.clear();
            let shown = &self.cells[..self.height as usize * COLUMNS];
            // there is room, so this does not fail
            let _ = self.gone.extend_from_slice(shown);
            self.gone_height = self.height;
        }
    }

    /// Shows so many rows, and empties those past them, in version 3 all.
    fn set_height(&mut self, version: u8, height: u8)
        ensures { self.new ≡ record self.old
            { cells = emptied (past version height) self.old.cells; height = height } }
    {
        let from = if version == 3 {
            0
        } else {
            height as usize * COLUMNS
        };
        // past the rows that were shown there are spaces alone
        empty(&mut self.cells, from, self.height as usize * COLUMNS);
        fill_up(&mut self.cells, height as usize * COLUMNS);
        self.height = height;
    }

    /// Gives the upper window so many rows, 255 at most (Standard, section 15, split_window). The rows past them
    /// are emptied, in version 3 all rows (section 8.6.1.1); the cursor goes to the top left where it was below.
    #[tactic(auto, unfolding(crate::specs::Windows::split))]
    pub fn split(&mut self, version: u8, lines: u16)
        ensures { self.new ≡ split version lines self.old }
    {
        let height = lines.min(255) as u8;
        self.keep_if_lower(height);
        self.set_height(version, height);
        if self.row > height as u16 {
            self.home();
        }
    }

    /// Selects a window; in the upper one the cursor goes to the top left (Standard, section 8.7.2).
    #[tactic(auto, unfolding(crate::specs::Windows::window_selected))]
    pub fn select(&mut self, window: Window)
        ensures { self.new ≡ window_selected window self.old }
    {
        self.selected = window;
        if window == Window::Upper {
            self.home();
        }
    }

    /// Empties the whole grid, and the cursor goes to the top left (Standard, section 8.7.3).
    #[tactic(auto, unfolding(crate::specs::Windows::cleared))]
    pub fn clear(&mut self)
        ensures { self.new ≡ cleared self.old }
    {
        empty_shown(&mut self.cells, self.height);
        self.home();
    }

    /// Clears the grid, shows no row of it any more, and selects the lower window (Standard, section 8.7.3.3).
    #[tactic(auto, unfolding(crate::specs::Windows::unsplit))]
    pub fn unsplit(&mut self)
        ensures { self.new ≡ unsplit self.old }
    {
        self.keep_if_lower(0);
        empty_shown(&mut self.cells, self.height);
        self.height = 0;
        self.selected = Window::Lower;
        self.home();
    }

    /// Forgets the grid that is gone.
    #[tactic(auto, unfolding(crate::specs::Windows::forgotten))]
    pub fn forget(&mut self)
        ensures { self.new ≡ forgotten self.old }
    {
        self.gone.clear();
        self.gone_height = 0;
    }

    /// Becomes like another.
    pub fn copy_from(&mut self, other: &Windows)
        ensures { self.new ≡ other.now }
    {
        self.cells.clear();
        // there is room, so neither fails
        let _ = self
            .cells
            .extend_from_slice(&other.cells[..other.height as usize * COLUMNS]);
        self.gone.clear();
        let _ = self.gone.extend_from_slice(other.gone.as_slice());
        self.height = other.height;
        self.width = other.width;
        self.row = other.row;
        self.column = other.column;
        self.selected = other.selected;
        self.style = other.style;
        self.fixed_font = other.fixed_font;
        self.gone_height = other.gone_height;
    }

    /// Empties the cursor's row from the cursor on (Standard, section 15, erase_line). Where the cursor stands
    /// past the last column or row, nothing is emptied.
    #[tactic(auto, unfolding(crate::specs::Windows::line_erased))]
    pub fn erase_line(&mut self)
        ensures { self.new ≡ line_erased self.old }
    {
        let from = place(self.row, self.column);
        let to = self.row as usize * COLUMNS;
        empty(&mut self.cells, from, to);
    }

    /// The cursor goes to a row and a column, or to the nearest of the grid (Standard, section 15, set_cursor).
    #[tactic(auto, unfolding(crate::specs::Windows::cursor_set))]
    pub fn set_cursor(&mut self, row: u16, column: u16)
        ensures { self.new ≡ cursor_set row column self.old }
    {
        self.row = row.min(255).max(1);
        self.column = column.min(self.width as u16).max(1);
    }

    /// The cursor goes to a column of the next row, past the last row at most.
    #[tactic(auto, unfolding(crate::specs::Windows::next_row))]
    pub fn start_row(&mut self, column: u16)
        requires from { 1 ≤ column }
        requires to { column ≤ 256 }
        ensures { self.new ≡ next_row column self.old }
    {
        self.row = (self.row + 1).min(256);
        self.column = column;
    }

    /// Puts a character in the style that is set into the cursor's cell, where that is shown.
    #[inline(always)]
    fn put_cell(&mut self, c: char)
        ensures { self.new ≡ character_put c self.old }
    {
        if self.row <= self.height as u16 && self.column <= self.width as u16 {
            let k = place(self.row, self.column);
            self.cells[k] = Cell {
                character: c,
                style: self.style,
            };
        }
    }

    /// Sets a text style by its number, for both windows (Standard, sections 8.7.1 and 15, set_text_style).
    pub fn set_style(&mut self, number: u16)
        ensures { self.new ≡ record self.old { style = style_set number self.old.style } }
    {
        self.style = self.style.set(number);
    }

    /// The text style that is set.
    pub fn style(&self) -> Style
        ensures { result ≡ self.now.style }
    {
        self.style
    }

    /// Sets the font of a fixed pitch, or the normal one (Standard, sections 8.1.2 and 15, set_font).
    pub fn set_font(&mut self, fixed: bool)
        ensures { self.new ≡ record self.old { fixed_font = fixed } }
    {
        self.fixed_font = fixed;
    }

    /// Whether the font that is set is that of a fixed pitch.
    pub fn is_font_fixed(&self) -> bool
        ensures { result ≡ self.now.fixed_font }
    {
        self.fixed_font
    }

    /// Prints a character at the cursor, which goes on to the right, past the last column at most; a new line
    /// ('\n') moves it to the first column of the next row. What stands past the last column or below the height
    /// is dropped.
    #[tactic(auto, unfolding(crate::specs::Windows::character_printed))]
    pub fn put(&mut self, c: char)
        ensures { self.new ≡ character_printed c self.old }
    {
        if c == '\n' {
            self.start_row(1);
            return;
        }
        self.put_cell(c);
        self.column = (self.column + 1).min(self.width as u16 + 1);
    }

    /// How many rows are shown.
    pub fn height(&self) -> u8
        ensures { result ≡ self.now.height }
    {
        self.height
    }

    /// The row and the column of the cursor, from 1 on; row 256 and the column after the screen's width are past the
    /// last ones.
    pub fn cursor(&self) -> (u16, u16)
        ensures row { result.0 ≡ self.now.row }
        ensures column { result.1 ≡ self.now.column }
        ensures row_within { (1 ≤ result.0) × (result.0 ≤ 256) }
        ensures column_within { (1 ≤ result.1) × (result.1 ≤ 256) }
    {
        (self.row, self.column)
    }

    /// How many columns a line of the screen has.
    pub fn width(&self) -> u8
        ensures { result ≡ self.now.width }
    {
        self.width
    }

    /// The window that is selected.
    pub fn selected(&self) -> Window
        ensures { result ≡ self.now.selected }
    {
        self.selected
    }

    /// The cells of a row, from 1 on, as far as its text goes: without the spaces at its end.
    #[tactic(auto, unfolding(crate::specs::Windows::row_text))]
    pub fn row(&self, row: u8) -> &[Cell]
        requires { 1 ≤ row }
        ensures value { map character_of result.now ≡ row_text self.now row }
        ensures within { length result.now ≤ 255 }
    {
        without_last_spaces(row_of(self.cells.as_slice(), self.height, row))
    }

    /// The cells of a row, from 1 on, without the empty ones at its end: a space in a style is seen.
    #[tactic(auto, unfolding(crate::specs::Windows::row_cells))]
    pub fn row_cells(&self, row: u8) -> &[Cell]
        requires { 1 ≤ row }
        ensures value { result.now ≡ row_cells self.now row }
        ensures within { length result.now ≤ 255 }
    {
        without_last_empty(row_of(self.cells.as_slice(), self.height, row))
    }

    /// How many rows the tallest grid has had since one was last forgotten.
    #[tactic(auto, unfolding(crate::specs::Windows::tallest_height))]
    pub fn tallest(&self) -> u8
        ensures { result ≡ tallest_height self.now }
    {
        self.height.max(self.gone_height)
    }

    /// The cells of a row of the tallest grid, from 1 on, as far as its text goes.
    #[tactic(auto, unfolding(crate::specs::Windows::tallest_row_text))]
    pub fn tallest_row(&self, row: u8) -> &[Cell]
        requires { 1 ≤ row }
        ensures value { map character_of result.now ≡ tallest_row_text self.now row }
        ensures within { length result.now ≤ 255 }
    {
        if self.height < self.gone_height {
            return without_last_spaces(row_of(self.gone.as_slice(), self.gone_height, row));
        }
        self.row(row)
    }

    /// The cells of a row of the tallest grid, from 1 on, without the empty ones at its end.
    #[tactic(auto, unfolding(crate::specs::Windows::tallest_row_cells))]
    pub fn tallest_row_cells(&self, row: u8) -> &[Cell]
        requires { 1 ≤ row }
        ensures value { result.now ≡ tallest_row_cells self.now row }
        ensures within { length result.now ≤ 255 }
    {
        if self.height < self.gone_height {
            return without_last_empty(row_of(self.gone.as_slice(), self.gone_height, row));
        }
        self.row_cells(row)
    }
}
