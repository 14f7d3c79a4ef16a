//! A case: what kati gets, and what it has to do.
use crate::text::{append_bytes, append_line, cut, number};
use std::alloc::{AllocError, Global};

/// Which text the next lines of a text belong to.
#[derive(Clone, Copy)]
enum Open {
    Nothing,
    File,
    Out,
    Lines,
    Err,
}

/// A case, as its lines tell it. What it doesn't name isn't looked at, but for the status, which is 0 then.
#[derive(Drop)]
pub struct Case<'a> {
    alloc: Global,
    pub name: &'a [u8],
    /// The arguments, after the name of the program.
    pub words: Vec<String>,
    pub files: Vec<(String, Vec<u8>)>,
    pub status: usize,
    pub out: Option<Vec<u8>>,
    /// Lines that the output holds, in this order.
    pub lines: Vec<u8>,
    pub err: Option<Vec<u8>>,
    /// The names that kati asks for, each with a newline.
    pub asked: Option<Vec<u8>>,
    /// `out` or `err`, where that output takes nothing.
    pub full: &'a [u8],
    /// Whether an argument is no text, so that only a host can run the case.
    pub is_of_host: bool,
    open: Open,
}

impl<'a> Case<'a> {
    pub fn new(alloc: Global, name: &'a [u8]) -> Case<'a> {
        Case {
            alloc,
            name,
            words: Vec::new(alloc),
            files: Vec::new(alloc),
            status: 0,
            out: None,
            lines: Vec::new(alloc),
            err: None,
            asked: None,
            full: b"",
            is_of_host: false,
            open: Open::Nothing,
        }
    }

    /// Adds a line of the case.
    pub fn add(&mut self, line: &'a [u8]) -> Result<(), AllocError> {
        match line {
            [b'|' | b'>' | b'?' | b'*' | b'#' | b'~', ..] => self.add_text(line),
            _ => {
                let (keyword, word) = cut(line);
                self.add_word(keyword, word)
            }
        }
    }

    fn add_text(&mut self, line: &[u8]) -> Result<(), AllocError> {
        match self.open {
            Open::Nothing => Ok(()),
            Open::File => match self.files.last_mut() {
                Some(file) => append_line(self.alloc, &mut file.1, line),
                None => Ok(()),
            },
            Open::Out => append_to(self.alloc, &mut self.out, line),
            Open::Lines => append_line(self.alloc, &mut self.lines, line),
            Open::Err => append_to(self.alloc, &mut self.err, line),
        }
    }

    fn add_word(&mut self, keyword: &[u8], word: &'a [u8]) -> Result<(), AllocError> {
        match keyword {
            b"arg" => self.add_argument(word),
            b"file" => self.add_file(word),
            b"status" => {
                self.status = number(word);
                Ok(())
            }
            b"full" => {
                self.full = word;
                Ok(())
            }
            b"out" => {
                self.out = Some(Vec::new(self.alloc));
                self.open = Open::Out;
                Ok(())
            }
            b"has" => {
                self.open = Open::Lines;
                Ok(())
            }
            b"err" => {
                self.err = Some(Vec::new(self.alloc));
                self.open = Open::Err;
                Ok(())
            }
            b"asked" => self.add_asked(word),
            _ => Ok(()),
        }
    }

    fn add_argument(&mut self, word: &[u8]) -> Result<(), AllocError> {
        let mut bytes = Vec::new(self.alloc);
        append_bytes(&mut bytes, word)?;
        match std::str::from_utf8(bytes.as_slice()) {
            Ok(text) => {
                self.words.push(String::from_str(self.alloc, text)?)?;
                Ok(())
            }
            Err(_) => {
                self.is_of_host = true;
                Ok(())
            }
        }
    }

    fn add_file(&mut self, word: &[u8]) -> Result<(), AllocError> {
        let mut bytes = Vec::new(self.alloc);
        append_bytes(&mut bytes, word)?;
        self.open = Open::File;
        match std::str::from_utf8(bytes.as_slice()) {
            Ok(text) => {
                let name = String::from_str(self.alloc, text)?;
                self.files.push((name, Vec::new(self.alloc)))?;
                Ok(())
            }
            Err(_) => Ok(()),
        }
    }

    fn add_asked(&mut self, word: &[u8]) -> Result<(), AllocError> {
        let mut names = match self.asked.take() {
            Some(names) => names,
            None => Vec::new(self.alloc),
        };
        append_bytes(&mut names, word)?;
        names.extend_from_slice(b"\n")?;
        self.asked = Some(names);
        Ok(())
    }
}

fn append_to(alloc: Global, text: &mut Option<Vec<u8>>, line: &[u8]) -> Result<(), AllocError> {
    match text {
        Some(text) => append_line(alloc, text, line),
        None => Ok(()),
    }
}
