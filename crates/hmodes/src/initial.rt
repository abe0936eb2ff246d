//! The "initial" insertion mode (HTML Standard, `#the-initial-insertion-mode`).

ghost use Rattle.std.specs.Prelude.{◌≡◌, ◌<◌, [], string_bytes, option_map};
ghost use Rattle.std.specs.Option.{option_map_or};
ghost use Rattle.hmodes.specs.Vocabulary.{optional_text, list_matches, is_text, conforms, forces_quirks, doctype_node, initial, state_of, token_of, Performs};
ghost use Rattle.hmodes.specs.Vocabulary.{error};
ghost use Rattle.hnodes.specs.Forest as forest;

use crate::mode::Mode;
use crate::token_kind::TokenKind::{self, *};
use crate::tree_construction::{Flow, Ruling, TreeConstruction};
use hnodes::DocumentType;
use htoken::Token;
use std::alloc::Global;

/// The system identifier that is no error.
const LEGACY_COMPAT: &str = "about:legacy-compat";

/// Whether a name or an identifier is there and is this text.
fn is_text(text: &str, found: &Option<String>) -> bool
    ensures { result ≡ is_text text.now (optional_text found.now) }
{
    match found {
        Some(found) => text == found.as_str(),
        None => false,
    }
}

fn conforms(token: &Token) -> bool
    ensures { result ≡ conforms (token_of token.now) }
{
    match token {
        Token::Doctype { doctype, .. } => {
            is_text("html", &doctype.name)
                && doctype.public_id.is_none()
                && (doctype.system_id.is_none() || is_text(LEGACY_COMPAT, &doctype.system_id))
        }
        _ => false,
    }
}

/// Takes the texts out of a doctype; what is missing is empty.
fn take_doctype(alloc: Global, token: &mut Token) -> DocumentType
    ensures { forest.doctype (string_bytes result.name) (string_bytes result.public_id) (string_bytes result.system_id) ≡ doctype_node (token_of token.old) }
{
    match token {
        Token::Doctype { doctype, .. } => DocumentType {
            name: doctype.name.take().unwrap_or(String::new(alloc)),
            public_id: doctype.public_id.take().unwrap_or(String::new(alloc)),
            system_id: doctype.system_id.take().unwrap_or(String::new(alloc)),
        },
        _ => DocumentType {
            name: String::new(alloc),
            public_id: String::new(alloc),
            system_id: String::new(alloc),
        },
    }
}

impl<'q> TreeConstruction<'q> {
    pub(crate) fn initial(&mut self, kind: TokenKind, token: &mut Token, at: u64) -> Ruling
        ensures { Performs at (initial kind) token.old self.old result token.new self.new }
    {
        match kind {
            Ws => Ok(Flow::Done),
            Comment => self.comment_in_document(token, at),
            Doctype => {
                self.error_unless(conforms(token), Mode::Initial, at)?;
                let quirks = self.forces_quirks(token);
                let texts = take_doctype(self.alloc, token);
                self.site.insert_doctype(texts, at)?;
                self.control.quirks = quirks;
                self.control.mode = Mode::BeforeHtml;
                Ok(Flow::Done)
            }
            _ => {
                self.error(Mode::Initial, at)?;
                self.control.quirks = true;
                self.control.mode = Mode::BeforeHtml;
                Ok(Flow::Again)
            }
        }
    }

    fn is_listed(&self, public: Option<&str>, system: Option<&str>) -> bool
        ensures { result ≡ list_matches (option_map_or (λ list. list.now) self.now.quirks_list []) (option_map (λ text. text.now) public.entry)
            (option_map (λ text. text.now) system.entry) }
    {
        match self.quirks_list {
            Some(list) => list.matches(public, system),
            None => false,
        }
    }

    fn forces_quirks(&self, token: &Token) -> bool
        ensures { result ≡ forces_quirks (state_of self.now) (token_of token.now) }
    {
        match token {
            Token::Doctype { doctype, .. } => {
                doctype.forced
                    || !is_text("html", &doctype.name)
                    || self.is_listed(doctype.public_id.as_deref(), doctype.system_id.as_deref())
            }
            _ => false,
        }
    }
}
