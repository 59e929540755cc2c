//! The form of a statement.
//! Source: [OPB]
ghost use Rattle.std.specs.Prelude.{◌≡◌};
ghost use Rattle.pb_read.specs.Capped.{read_back};
ghost use Rattle.pb_read.specs.Places.{next_after_terms, next_place, is_start, is_whole};

use crate::opb::token::Token;

/// How far a statement has come.
#[derive(Clone, Copy, PartialEq, Eq)]
pub(crate) enum Place {
    Start,
    Terms { objective: bool },
    Coefficient { objective: bool },
    Literals { objective: bool },
    AfterRelation,
    AfterNumber,
    Whole,
    Wrong,
}

fn next_after_terms(objective: bool, token: Token) -> Place
    ensures { result ≡ next_after_terms objective (read_back token) }
{
    match token {
        Token::Number { .. } => Place::Coefficient { objective },
        Token::End => if objective {
            Place::Whole
        } else {
            Place::Wrong
        },
        Token::Related(_) => if objective {
            Place::Wrong
        } else {
            Place::AfterRelation
        },
        Token::Min | Token::Literal { .. } | Token::Bad => Place::Wrong,
    }
}

impl Place {
    /// Where the next token leads.
    pub(crate) fn next(self, token: Token) -> Place
        ensures { result ≡ next_place self (read_back token) }
    {
        match self {
            Place::Start => match token {
                Token::Min => Place::Terms { objective: true },
                _ => next_after_terms(false, token),
            },
            Place::Terms { objective } => next_after_terms(objective, token),
            Place::Coefficient { objective } => match token {
                Token::Literal { .. } => Place::Literals { objective },
                _ => Place::Wrong,
            },
            Place::Literals { objective } => match token {
                Token::Literal { .. } => Place::Literals { objective },
                _ => next_after_terms(objective, token),
            },
            Place::AfterRelation => match token {
                Token::Number { .. } => Place::AfterNumber,
                _ => Place::Wrong,
            },
            Place::AfterNumber => match token {
                Token::End => Place::Whole,
                _ => Place::Wrong,
            },
            Place::Whole | Place::Wrong => Place::Wrong,
        }
    }

    /// Whether no token has come.
    pub(crate) fn is_start(self) -> bool
        ensures { result ≡ is_start self }
    {
        matches!(self, Place::Start)
    }

    /// Whether the statement is whole.
    pub(crate) fn is_whole(self) -> bool
        ensures { result ≡ is_whole self }
    {
        matches!(self, Place::Whole)
    }
}
