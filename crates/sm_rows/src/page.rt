//! A text of rows, read.
use crate::RowFault;
use crate::case::Case;
use crate::common::COMMON;
use crate::definition::{Definition, expanded};
use crate::line::{Line, lines_of};
use crate::row::Row;
use crate::source::is_source;
use crate::token::{Token, tokens_of};
use crate::words::Words;
use std::alloc::Global;

// Lines that `use` puts in its place.
#[derive(Debug, Drop)]
struct Block {
    name: String,
    lines: Vec<Line>,
}

// The keys of the lines that a call reads.
#[derive(Debug, Drop)]
struct Keys {
    call: String,
    keys: Vec<Token>,
}

/// What texts of rows say: names, blocks and the keys of calls, and the rows that were read last.
#[derive(Debug, Drop)]
pub struct Page {
    definitions: Vec<Definition>,
    blocks: Vec<Block>,
    calls: Vec<Keys>,
    rows: Vec<Row>,
}

// Where the next line stands.
#[derive(Clone, Copy, Debug)]
enum Place {
    Top,
    Block,
    Row,
}

impl Page {
    /// A page without rows, which knows the names and blocks that all programs have in common.
    pub fn new(alloc: Global) -> Result<Page, RowFault> {
        let mut page = Page {
            definitions: Vec::new(alloc),
            blocks: Vec::new(alloc),
            calls: Vec::new(alloc),
            rows: Vec::new(alloc),
        };
        page.read(alloc, COMMON)?;
        Ok(page)
    }

    /// Lets `$name` stand for these bytes, as those of a file.
    pub fn define(&mut self, alloc: Global, name: &str, bytes: &[u8]) -> Result<(), RowFault> {
        let token = Token {
            bytes: Vec::from_slice(alloc, bytes)?,
            quoted: true,
        };
        self.definitions.push(Definition {
            name: Vec::from_slice(alloc, name.as_bytes())?,
            parameters: Vec::new(alloc),
            body: vec![in alloc; token]?,
        })?;
        Ok(())
    }

    /// Reads a text: its names, blocks and keys are added to those that are known, and its rows take the place of the former.
    /// After a fault of a line the page has the lines in front of it. A row that doesn't say where its values are from, or that
    /// has a line which its call doesn't read, is a fault too.
    pub fn read(&mut self, alloc: Global, text: &str) -> Result<(), RowFault> {
        self.rows = Vec::new(alloc);
        let mut place = Place::Top;
        for line in lines_of(alloc, text)? {
            place = self.take(alloc, place, line)?;
        }
        for row in self.rows.iter() {
            self.check(row)?;
        }
        Ok(())
    }

    // Whether a row says where its values are from, and has no line that its call doesn't read.
    fn check(&self, row: &Row) -> Result<(), RowFault> {
        if row.source.is_empty() {
            return Err(RowFault::new(row.number, "the row doesn't say where its values are from"));
        }
        let Some(known) = self.keys_of(row.call.as_str()) else {
            return Err(RowFault::new(row.number, "nothing says which lines the call reads"));
        };
        for line in row.lines.iter() {
            if !line.is_wanted() && !known.keys.iter().any(|key| key.is(line.key())) {
                return Err(line.fault("the call reads no such line"));
            }
        }
        Ok(())
    }

    fn keys_of(&self, call: &str) -> Option<&Keys> {
        self.calls.iter().find(|keys| keys.call.as_str() == call)
    }

    // Takes a line, and says where the next one stands.
    fn take(&mut self, alloc: Global, place: Place, line: Line) -> Result<Place, RowFault> {
        if line.key.is_empty() {
            return Ok(Place::Top);
        }
        match place {
            Place::Top => return self.begin(alloc, line),
            Place::Block => {
                if let Some(block) = self.blocks.last_mut() {
                    block.lines.push(line)?;
                }
            }
            Place::Row => self.add(alloc, line)?,
        }
        Ok(place)
    }

    // Takes a line behind a blank one.
    fn begin(&mut self, alloc: Global, line: Line) -> Result<Place, RowFault> {
        match line.key.as_str() {
            "let" => {
                self.add_definition(alloc, &line)?;
                Ok(Place::Top)
            }
            "keys" => {
                self.add_keys(alloc, &line)?;
                Ok(Place::Top)
            }
            "block" => {
                let Line {
                    number,
                    key: _,
                    value,
                } = line;
                if self.has_block(value.as_str()) {
                    return Err(RowFault::new(number, "there is such a block already"));
                }
                self.blocks.push(Block {
                    name: value,
                    lines: Vec::new(alloc),
                })?;
                Ok(Place::Block)
            }
            "row" => {
                let Line {
                    number,
                    key: _,
                    value,
                } = line;
                self.rows.push(Row {
                    number,
                    name: value,
                    call: String::new(alloc),
                    source: String::new(alloc),
                    lines: Vec::new(alloc),
                })?;
                Ok(Place::Row)
            }
            _ => Err(line.fault("no row, name, block or keys begin here")),
        }
    }

    fn has_block(&self, name: &str) -> bool {
        self.blocks.iter().any(|block| block.name.as_str() == name)
    }

    fn has_definition(&self, name: &Token) -> bool {
        let name = name.bytes.as_slice();
        self.definitions
            .iter()
            .any(|definition| definition.name.as_slice() == name)
    }

    fn add_definition(&mut self, alloc: Global, line: &Line) -> Result<(), RowFault> {
        let mut head = Vec::new(alloc);
        let mut body = Vec::new(alloc);
        let mut is_body = false;
        for token in tokens_of(alloc, line.number, line.value.as_str())? {
            if is_body {
                body.push(token)?;
            } else if token.is("=") {
                is_body = true;
            } else {
                head.push(token)?;
            }
        }
        if !is_body || head.is_empty() {
            return Err(line.fault("a name without a meaning"));
        }
        let name = head.remove(0);
        if self.has_definition(&name) {
            return Err(line.fault("the name stands for something already"));
        }
        let body = expanded(
            alloc,
            line.number,
            self.definitions.as_slice(),
            body.as_slice(),
        )?;
        self.definitions.push(Definition {
            name: name.bytes,
            parameters: head,
            body,
        })?;
        Ok(())
    }

    fn add_keys(&mut self, alloc: Global, line: &Line) -> Result<(), RowFault> {
        let Some((call, keys)) = line.value().split_once(" =") else {
            return Err(line.fault("keys without a call"));
        };
        if self.keys_of(call).is_some() {
            return Err(line.fault("the keys of the call are said already"));
        }
        self.calls.push(Keys {
            call: String::from_str(alloc, call)?,
            keys: tokens_of(alloc, line.number, keys)?,
        })?;
        Ok(())
    }

    // Adds a line to the last row.
    fn add(&mut self, alloc: Global, line: Line) -> Result<(), RowFault> {
        let Some(row) = self.rows.last_mut() else {
            return Ok(());
        };
        match line.key.as_str() {
            "call" => {
                row.call = line.value;
                Ok(())
            }
            "from" => {
                if !is_source(line.value()) || !row.source.is_empty() {
                    return Err(line.fault("a source of no meaning, or a second one"));
                }
                row.source = line.value;
                Ok(())
            }
            "use" => {
                for block in self.blocks.iter() {
                    if block.name.as_str() == line.value.as_str() {
                        return append_lines(alloc, &mut row.lines, block.lines.as_slice());
                    }
                }
                Err(line.fault("there is no such block"))
            }
            _ => {
                row.lines.push(line)?;
                Ok(())
            }
        }
    }

    /// How many rows were read.
    pub fn len(&self) -> usize {
        self.rows.len()
    }

    /// Whether no row was read.
    pub fn is_empty(&self) -> bool {
        self.rows.is_empty()
    }

    /// The row at a place, from 0.
    pub fn case(&self, at: usize) -> Option<Case<'_>> {
        let row = self.rows.get(at)?;
        Some(Case { page: self, row })
    }

    // The words of a text that stands in this line.
    pub(crate) fn words(&self, alloc: Global, line: u64, text: &str) -> Result<Words, RowFault> {
        let tokens = tokens_of(alloc, line, text)?;
        Ok(Words {
            line,
            tokens: expanded(alloc, line, self.definitions.as_slice(), tokens.as_slice())?,
        })
    }
}

fn append_lines(alloc: Global, out: &mut Vec<Line>, lines: &[Line]) -> Result<(), RowFault> {
    for line in lines {
        out.push(line.copy(alloc)?)?;
    }
    Ok(())
}
