//! The definitions of a table.
use bstr::ByteSlice;
use camp_notation::{NotationError, read_list, read_named, read_tree};
use camp_prim::Named;
use std::alloc::{AllocError, AllocFailed, Global};

/// The definitions of a table so far: primitives, which have a line of their own, their inverses, and the names of
/// other values; and whether results are shown.
#[derive(Drop)]
pub(crate) struct Table {
    alloc: Global,
    known: Vec<Named>,
    bound: Vec<Binding>,
    is_quiet: bool,
}

/// A name, and the text that it represents.
#[derive(Drop)]
struct Binding {
    name: Vec<u8>,
    text: Vec<u8>,
}

/// Splits a line into the name of its call and the text of the arguments.
pub(crate) fn split_call(line: &[u8]) -> Option<(&[u8], &[u8])> {
    if line.starts_with(b"#") {
        return None;
    }
    match line.split_once_str(b"(") {
        Some((name, rest)) if !name.contains(&b' ') => {
            Some((name, rest.strip_suffix(b")").unwrap_or(rest)))
        }
        _ => None,
    }
}

impl Table {
    /// Makes a table without definitions.
    pub(crate) fn new(alloc: Global) -> Table {
        Table {
            alloc,
            known: Vec::new(alloc),
            bound: Vec::new(alloc),
            is_quiet: false,
        }
    }

    pub(crate) fn alloc(&self) -> Global {
        self.alloc
    }

    pub(crate) fn known(&self) -> &[Named] {
        &self.known
    }

    /// True if `made` is shown instead of most results.
    pub(crate) fn is_quiet(&self) -> bool {
        self.is_quiet
    }

    /// Returns what a word stands for: its definition, or itself if it has none.
    pub(crate) fn meaning<'a>(&'a self, word: &'a [u8]) -> &'a [u8] {
        for binding in &self.bound {
            if binding.name.as_slice() == word {
                return &binding.text;
            }
        }
        word
    }

    /// Stores the definition of a line.
    pub(crate) fn learn(&mut self, line: &[u8]) -> Result<(), NotationError> {
        if line.is_empty() || line.starts_with(b"#") {
            return Ok(());
        }
        if line.starts_with(b"table ") {
            self.forget();
            return Ok(());
        }
        if line == b"quiet".as_slice() {
            self.is_quiet = true;
            return Ok(());
        }
        match line.split_once_str(b" = ") {
            Some((name, text)) if !name.contains(&b' ') => self.bind(name, text),
            _ => self.know(line),
        }
    }

    // Starts a new table.
    fn forget(&mut self) {
        self.known.clear();
        self.bound.clear();
        self.is_quiet = false;
    }

    // Stores the definition of a name, instead of an earlier one.
    fn bind(&mut self, name: &[u8], text: &[u8]) -> Result<(), NotationError> {
        self.expect_value(text)?;
        let binding = binding_of(self.alloc, name, text)?;
        Ok(self.bound.insert(0, binding)?)
    }

    /// Returns a fault unless a text can be parsed as a tree or a list.
    fn expect_value(&self, text: &[u8]) -> Result<(), NotationError> {
        if text.starts_with(b"{") {
            let _tree = read_tree(self.alloc, text)?;
        } else {
            let _list = read_list(self.alloc, &self.known, text)?;
        }
        Ok(())
    }

    fn know(&mut self, line: &[u8]) -> Result<(), NotationError> {
        let p = read_named(self.alloc, &[], line)?;
        let inverse = p.try_clone()?.invert();
        self.put(p)?;
        Ok(self.put(inverse)?)
    }

    // Stores a primitive, instead of an earlier one with the same label.
    fn put(&mut self, p: Named) -> Result<(), AllocFailed<Named>> {
        for known in self.known.iter_mut() {
            if known.label() == p.label() {
                *known = p;
                return Ok(());
            }
        }
        self.known.push(p)
    }
}

fn binding_of(alloc: Global, name: &[u8], text: &[u8]) -> Result<Binding, AllocError> {
    let name = Vec::from_slice(alloc, name)?;
    let text = Vec::from_slice(alloc, text)?;
    Ok(Binding { name, text })
}
