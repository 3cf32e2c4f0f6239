//! The places of the entries of sections.

use crate::findings::Entry;
use wasmprinter_decoder::{Data, Element, Export, Global, Import, Memory, Table, Tag, TypeGroup};

impl<'a> Entry for TypeGroup<'a> {
    ghost place = { λ e. e.place };

    fn place(&self) -> u64 {
        self.place()
    }
}

impl<'a> Entry for Import<'a> {
    ghost place = { λ e. e.place };

    fn place(&self) -> u64 {
        self.place()
    }
}

impl<'a> Entry for Table<'a> {
    ghost place = { λ e. e.place };

    fn place(&self) -> u64 {
        self.place()
    }
}

impl Entry for Memory {
    ghost place = { λ e. e.place };

    fn place(&self) -> u64 {
        self.place()
    }
}

impl Entry for Tag {
    ghost place = { λ e. e.place };

    fn place(&self) -> u64 {
        self.place()
    }
}

impl<'a> Entry for Global<'a> {
    ghost place = { λ e. e.place };

    fn place(&self) -> u64 {
        self.place()
    }
}

impl<'a> Entry for Export<'a> {
    ghost place = { λ e. e.place };

    fn place(&self) -> u64 {
        self.place()
    }
}

impl<'a> Entry for Element<'a> {
    ghost place = { λ e. e.place };

    fn place(&self) -> u64 {
        self.place()
    }
}

impl<'a> Entry for Data<'a> {
    ghost place = { λ e. e.place };

    fn place(&self) -> u64 {
        self.place()
    }
}
