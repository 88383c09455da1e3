use anyhow::{anyhow, bail};
use std::alloc::{AllocError, Global};

/// What is to come of an input.
#[derive(Drop)]
pub struct Wanted {
    /// The number of the status.
    pub status: u8,
    /// What is written, where that is said.
    pub text: Option<Vec<u8>>,
    /// Whether more may stand behind the text.
    pub is_open: bool,
}

/// The first bytes of a case's input, and what is to come of them.
#[derive(Drop)]
pub struct Cut {
    /// How many bytes there are.
    pub length: usize,
    /// What is to come of them.
    pub wanted: Wanted,
}

/// A case, as it is written.
#[derive(Drop)]
pub struct Case {
    /// What it is called.
    pub name: String,
    /// The words of its command line.
    pub words: Vec<Vec<u8>>,
    /// Its input.
    pub input: Vec<u8>,
    /// What is to come of it.
    pub wanted: Wanted,
    /// What is to come of parts of the input.
    pub cuts: Vec<Cut>,
}

impl Case {
    /// A case of this name, of which nothing else is said yet.
    pub fn new(alloc: Global, name: &str) -> Result<Case, AllocError> {
        Ok(Case {
            name: String::from_str(alloc, name)?,
            words: Vec::new(alloc),
            input: Vec::new(alloc),
            wanted: Wanted {
                status: 0,
                text: Some(Vec::new(alloc)),
                is_open: false,
            },
            cuts: Vec::new(alloc),
        })
    }

    /// Takes a line with this mark, and with this text behind it.
    pub fn note(&mut self, alloc: Global, mark: &str, text: &str) -> anyhow::Result<()> {
        match mark {
            ":" => self.words.push(Vec::from_slice(alloc, text.as_bytes())?)?,
            "<" => push_times(&mut self.input, 1, text, "\n")?,
            "-" => push_times(&mut self.input, 1, text, "")?,
            "+" => push_counted(&mut self.input, text, "\n")?,
            "*" => push_counted(&mut self.input, text, "")?,
            "?" => self.wanted.status = text.parse::<u8>()?,
            ">" => push_wanted(&mut self.wanted, text, "\n")?,
            "~" => {
                self.wanted.is_open = true;
                push_wanted(&mut self.wanted, text, "")?;
            }
            "%" => self.cuts.push(cut_of(alloc, text)?)?,
            _ => bail!("there is no such mark: {mark}"),
        }
        Ok(())
    }
}

// Appends the text with its end so many times.
fn push_times(to: &mut Vec<u8>, count: u32, text: &str, end: &str) -> Result<(), AllocError> {
    for _ in 0..count {
        to.extend_from_slice(text.as_bytes())?;
        to.extend_from_slice(end.as_bytes())?;
    }
    Ok(())
}

// The same with the number in front of the text.
fn push_counted(to: &mut Vec<u8>, text: &str, end: &str) -> anyhow::Result<()> {
    let (count, text) = text.split_once(' ').ok_or_else(|| anyhow!("no number"))?;
    push_times(to, count.parse::<u32>()?, text, end)?;
    Ok(())
}

// Appends a piece of what is to be written.
fn push_wanted(wanted: &mut Wanted, text: &str, end: &str) -> Result<(), AllocError> {
    match &mut wanted.text {
        Some(whole) => push_times(whole, 1, text, end),
        None => Ok(()),
    }
}

// A length, the number of a status, and a line, if one is told.
fn cut_of(alloc: Global, text: &str) -> anyhow::Result<Cut> {
    let (length, rest) = text.split_once(' ').ok_or_else(|| anyhow!("no status"))?;
    let (status, told) = match rest.split_once(' ') {
        Some((status, line)) => {
            let mut told = Vec::new(alloc);
            push_times(&mut told, 1, line, "\n")?;
            (status, Some(told))
        }
        None => (rest, None),
    };
    Ok(Cut {
        length: length.parse::<usize>()?,
        wanted: Wanted {
            status: status.parse::<u8>()?,
            text: told,
            is_open: false,
        },
    })
}
