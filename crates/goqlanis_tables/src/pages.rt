//! One PDF document with a page for each code.
//!
//! The library draws each code as a file of one page, and it is proved what that file shows. The
//! document takes the page and its drawing operators from there, byte for byte; only the numbers of
//! objects are new. What the document adds, the tree of pages and the table of objects, is tested.

use crate::Done;
use goqlanis_files::refused;
use goqlanis_files::streams::Series;
use std::alloc::{AllocError, Global};

// The most bytes of pages. Where an object begins has ten digits in the table; the rest is for nodes.
const MOST_BYTES: usize = 9_999_000_000;

// The most pages under a node of their tree. (An array of PDF 1.4 has at most 8,191 items.)
const MOST_KIDS: usize = 1_000;

/// A document, which is written page by page. Without any page nothing is written.
#[derive(Drop)]
pub struct Pages<'a> {
    /// Where it is written.
    pub series: Series<'a>,
    // The number of bytes written so far.
    length: usize,
    // Where each object begins, by number.
    starts: Vec<usize>,
    // The numbers of the nodes under the root.
    nodes: Vec<usize>,
    // The numbers of the pages under the last node, and how many pages there are in all.
    kids: Vec<usize>,
    count: usize,
}

type Three<'a> = (&'a str, &'a str, &'a str);

impl<'a> Pages<'a> {
    /// Returns a document without pages.
    pub fn new(alloc: Global, series: Series<'a>) -> Pages<'a> {
        Pages {
            series,
            length: 0,
            starts: Vec::new(alloc),
            nodes: Vec::new(alloc),
            kids: Vec::new(alloc),
            count: 0,
        }
    }

    /// Writes the page of a file that the library drew, as the next of the document.
    ///
    /// Errors: `Refused` if the document would be too long; those of `Series::write`; `OutOfMemory`.
    pub fn add(&mut self, rt: &HostRuntime, file: &[u8]) -> Done<()> {
        let Some((head, (before, between, after), contents)) = str::from_utf8(file)
            .ok()
            .and_then(parts_of)
        else {
            return refused!(rt.alloc();
                "this PDF file is not one of a page, as those that goqlanis draws"
            );
        };
        if self.length.saturating_add(file.len()) > MOST_BYTES {
            return refused!(rt.alloc();
                "the PDF document would have more than 10 GB: write several, of fewer lines each"
            );
        }
        self.begin_page(rt, head)?;
        let node = self.nodes.last().copied().unwrap_or(0);
        let number = self.starts.len().saturating_add(1);
        let inside = number.saturating_add(1);
        self.kids.push(number)?;
        self.count = self.count.saturating_add(1);
        let page = format!(in rt.alloc(); "{before}{node} 0 R{between}{inside} 0 R{after}")?;
        self.put_object(rt, page.as_str())?;
        self.put_object(rt, contents)
    }

    // Writes what comes before a page: the head of the document, or the last full node.
    fn begin_page(&mut self, rt: &HostRuntime, head: Three<'_>) -> Done<()> {
        if self.starts.is_empty() {
            let (version, catalog, information) = head;
            self.put(rt, version)?;
            self.put_object(rt, catalog)?;
            self.starts.push(0)?;
            self.put_object(rt, information)?;
        }
        if self.nodes.is_empty() || self.kids.len() >= MOST_KIDS {
            self.end_node(rt)?;
            self.starts.push(0)?;
            self.nodes.push(self.starts.len())?;
        }
        Ok(())
    }

    // Writes the last node of the tree, if there is one.
    fn end_node(&mut self, rt: &HostRuntime) -> Done<()> {
        let Some(node) = self.nodes.last().copied() else {
            return Ok(());
        };
        let head = format!(in rt.alloc(); "{node} 0 obj\n<</Type/Pages/Parent 2 0 R")?;
        let text = node_of(head, &self.kids, self.kids.len())?;
        self.put_at(rt, node, text.as_str())?;
        self.kids.clear();
        Ok(())
    }

    // Writes an object of the tree, of which only the number is known so far.
    fn put_at(&mut self, rt: &HostRuntime, number: usize, text: &str) -> Done<()> {
        if let Some(start) = self.starts.get_mut(number.saturating_sub(1)) {
            *start = self.length;
        }
        self.put(rt, text)
    }

    // Writes the next object.
    fn put_object(&mut self, rt: &HostRuntime, object: &str) -> Done<()> {
        self.starts.push(self.length)?;
        let number = self.starts.len();
        let text = format!(in rt.alloc(); "{number} 0 obj\n{object}")?;
        self.put(rt, text.as_str())
    }

    // Writes a text.
    fn put(&mut self, rt: &HostRuntime, text: &str) -> Done<()> {
        self.series.write(rt, text.as_bytes())?;
        self.length = self.length.saturating_add(text.len());
        Ok(())
    }

    /// Writes the end of the document, if it has pages: their tree, and where each object begins.
    ///
    /// Errors: those of `Series::write`; `OutOfMemory`.
    pub fn end(&mut self, rt: &HostRuntime) -> Done<()> {
        if self.starts.is_empty() {
            return Ok(());
        }
        self.end_node(rt)?;
        let head = String::from_str(rt.alloc(), "2 0 obj\n<</Type/Pages")?;
        let root = node_of(head, &self.nodes, self.count)?;
        self.put_at(rt, 2, root.as_str())?;
        let (end, size) = (self.length, self.starts.len().saturating_add(1));
        // 20 bytes for each object, and for object 0, which is free.
        let mut table = format!(in rt.alloc(); "xref\n0 {size}\n0000000000 65535 f \n")?;
        for start in &self.starts {
            write!(table, "{start:010} 00000 n \n")?;
        }
        write!(
            table,
            "trailer\n<</Size {size}/Root 1 0 R/Info 3 0 R>>\nstartxref\n{end}\n%%EOF\n"
        )?;
        self.put(rt, table.as_str())
    }
}

// Splits a file of one page into its parts: version, catalog and information; the page before its
// references to its node and to its contents, between them, and after; and the contents.
fn parts_of(file: &str) -> Option<(Three<'_>, Three<'_>, &str)> {
    let (version, rest) = file.split_once("1 0 obj\n")?;
    let (catalog, rest) = rest.split_once("2 0 obj\n")?;
    let (_, rest) = rest.split_once("3 0 obj\n")?;
    let (before, rest) = rest.split_once("2 0 R")?;
    let (between, rest) = rest.split_once("4 0 R")?;
    let (after, rest) = rest.split_once("4 0 obj\n")?;
    let (contents, rest) = rest.split_once("5 0 obj\n")?;
    let (information, _) = rest.split_once("xref\n")?;
    Some((
        (version, catalog, information),
        (before, between, after),
        contents,
    ))
}

// Returns a node of the tree, which begins with `head`: its children, and how many pages they have.
fn node_of(head: String, kids: &[usize], count: usize) -> Result<String, AllocError> {
    let mut text = head;
    text.push_str("/Kids[")?;
    for kid in kids {
        write!(text, "{kid} 0 R\n")?;
    }
    write!(text, "]/Count {count}>>\nendobj\n")?;
    Ok(text)
}
