//! The stack of open forms.

ghost use Rattle.std.specs.Prelude.{◌≡◌, [], ◌∷◌, IfOk, OnOk};
ghost use Rattle.ml_parser.specs.Frames.{around, innermost, parts_of, frame_at, whole_text};

use ml_moves::Form;
use std::alloc::{AllocError, Global};
use std::marker::Model;

/// An open form, the number of its token, and how many of its parts have begun.
#[derive(Clone, Copy)]
pub struct Frame {
    pub form: Form,
    pub token: usize,
    pub parts: usize,
}

/// The open forms, which contracts see as a list, the innermost first.
#[derive(Drop)]
pub struct Frames {
    items: Vec<Frame>,
}

impl Model for Frames {
    ghost use Rattle.std.specs.Prelude.{List, reverse};
    ghost use Rattle.ml_parser.specs.declared.frames.Frame.{Frame};

    ghost Value = { List Frame };

    ghost view = { λ a. reverse a.items.items };
}

// What stands for the whole text.
const WHOLE_TEXT: Frame = Frame {
    form: Form::Program,
    token: 0,
    parts: 0,
};

impl Frames {
    /// Nothing is open.
    pub fn new(alloc: Global) -> Frames
        ensures { result ≡ [] }
    {
        Frames {
            items: Vec::new(alloc),
        }
    }

    /// Opens a form.
    pub fn push(&mut self, frame: Frame) -> Result<(), AllocError>
        ensures { OnOk result (self.new ≡ frame ∷ self.old) }
    {
        self.items.push(frame)?;
        Ok(())
    }

    /// Takes the innermost form off. Where nothing is open that is refused as memory is.
    pub fn pop(&mut self) -> Result<Frame, AllocError>
        ensures { IfOk result (λ frame. self.old ≡ frame ∷ self.new) }
    {
        match self.items.pop() {
            Some(frame) => Ok(frame),
            None => Err(AllocError),
        }
    }

    /// The form that so many others stand in, the innermost one being 0, or the whole text.
    pub fn at(&self, inner: usize) -> Frame
        ensures { result ≡ frame_at self.now inner }
    {
        let len = self.items.len();
        if inner < len {
            self.items[len - 1 - inner]
        } else {
            WHOLE_TEXT
        }
    }

    /// The innermost form, or the whole text.
    pub fn innermost(&self) -> Form
        ensures { result ≡ innermost self.now }
    {
        self.at(0).form
    }

    /// The form round the innermost one, or the whole text.
    pub fn around(&self) -> Form
        ensures { result ≡ around self.now }
    {
        self.at(1).form
    }

    /// How many parts of the innermost form have begun.
    pub fn parts(&self) -> usize
        ensures { result ≡ parts_of self.now }
    {
        self.at(0).parts
    }
}
