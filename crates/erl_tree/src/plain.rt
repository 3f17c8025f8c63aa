use crate::token::{Node, Place, Placed, Token};
use std::alloc::Global;
use type_terms::{NoMemory, Plain};

impl Plain for Place {
    fn copy(&self, _alloc: Global) -> Result<Place, NoMemory> {
        Ok(*self)
    }
}

impl Plain for Token {
    fn copy(&self, alloc: Global) -> Result<Token, NoMemory> {
        match self {
            Token::Atom(text) => Ok(Token::Atom(text.copy(alloc)?)),
            Token::Var(text) => Ok(Token::Var(text.copy(alloc)?)),
            Token::Int(number) => Ok(Token::Int(*number)),
            Token::Char(code) => Ok(Token::Char(*code)),
            Token::Str(text) => Ok(Token::Str(text.copy(alloc)?)),
            Token::Word(text) => Ok(Token::Word(text.copy(alloc)?)),
            Token::Mark(text) => Ok(Token::Mark(text.copy(alloc)?)),
            Token::Dot => Ok(Token::Dot),
            Token::End => Ok(Token::End),
        }
    }
}

impl Plain for Placed {
    fn copy(&self, alloc: Global) -> Result<Placed, NoMemory> {
        let token = self.token.copy(alloc)?;
        Ok(Placed {
            token,
            place: self.place,
        })
    }
}

impl<K: Plain> Plain for Node<K> {
    fn copy(&self, alloc: Global) -> Result<Node<K>, NoMemory> {
        let marks = self.marks.copy(alloc)?;
        let kind = self.kind.copy(alloc)?;
        Ok(Node {
            place: self.place,
            marks,
            kind,
        })
    }
}
