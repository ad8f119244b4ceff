//! An element of a graph type, and the whole body.

ghost use Rattle.std.specs.Prelude.{◌≡◌, ◌<◌, ◌≤◌, length, IfOk, Some};
ghost use Rattle.gql_front.specs.Reads.{Reads, MayRead};
ghost use Rattle.gql_type.specs.Machinery.TypeReaders.{type_node_of, is_alone, segment_behind, made_element, type_body_of};

use crate::segment::TypeSegment;
use crate::type_content::{TypeParts, content};
use gql_ast::{ElementBody, TypeBody, TypeElement};
use gql_front::{ParseResult, after_sign};
use gql_lexer::Lexeme;
use gql_lexer::symbols::{CLOSING, CLOSING_BRACE, OPENING, OPENING_BRACE};
use gql_parts::{Item, item_or_nothing, list, variable};
use gql_values3::Text;
use std::alloc::Global;

/// The longest front of the lexemes that derives the body of a graph type, braces included, and the lexemes behind it
/// ([`crate::the_longest_type_is_read`]). `Syntax` comes exactly where no front derives one; want of memory is the one other
/// answer.
#[tactic(auto, unfolding(crate::specs::Machinery::TypeReaders::type_body_of))]
pub fn parse_type<'a>(alloc: Global, rest: &'a [Lexeme]) -> ParseResult<'a, TypeBody>
    ensures { Reads result rest.now type_body_of }
{
    let rest = after_sign(OPENING_BRACE, rest)?;
    let (elements, rest) = list::<TypeParts, TypeElement>(alloc, rest)?;
    let rest = after_sign(CLOSING_BRACE, rest)?;
    Ok((TypeBody { elements }, rest))
}

impl Item<TypeParts> for TypeElement {
    ghost use Rattle.gql_type.specs.Machinery.TypeReaders.{element_of};

    ghost reader = { element_of };

    #[tactic(auto, unfolding(crate::specs::Machinery::TypeReaders::element_of))]
    fn read<'a>(alloc: Global, rest: &'a [Lexeme]) -> ParseResult<'a, TypeElement> {
        let ((alias, body), rest) = type_node(alloc, rest)?;
        let (segment, rest) = segment_behind(alloc, &alias, &body, rest)?;
        Ok((made_element(segment, alias, body), rest))
    }
}

/// What stands between parentheses.
#[tactic(auto, unfolding(crate::specs::Machinery::TypeReaders::type_node_of))]
fn type_node<'a>(alloc: Global, rest: &'a [Lexeme]) -> ParseResult<'a, (Option<Text>, ElementBody)>
    ensures { Reads result rest.now type_node_of }
{
    let rest = after_sign(OPENING, rest)?;
    let (alias, rest) = variable(alloc, rest)?;
    let (body, rest) = content(alloc, rest)?;
    let rest = after_sign(CLOSING, rest)?;
    Ok(((alias, body), rest))
}

/// The edge behind an alias that stands alone between parentheses, or nothing.
fn segment_behind<'a>(
    alloc: Global,
    alias: &Option<Text>,
    body: &ElementBody,
    rest: &'a [Lexeme],
) -> ParseResult<'a, Option<TypeSegment>>
    ensures { MayRead result rest.now (λ ts. Some (segment_behind alias.now body.now ts)) }
{
    if is_alone(alias, body) {
        item_or_nothing::<TypeParts, TypeSegment>(alloc, rest, rest)
    } else {
        Ok((None, rest))
    }
}

/// Whether nothing but an alias stands between the parentheses.
fn is_alone(alias: &Option<Text>, body: &ElementBody) -> bool
    ensures { result ≡ is_alone alias.now body.now }
{
    alias.is_some() && body.labels.is_none() && body.properties.is_none()
}

/// The edge type where an edge stands behind the alias, else the node type.
fn made_element(segment: Option<TypeSegment>, alias: Option<Text>, body: ElementBody) -> TypeElement
    ensures { result ≡ made_element segment alias body }
{
    match (segment, alias) {
        (None, alias) => TypeElement::Node(alias, body),
        (Some(_), None) => TypeElement::Node(None, body),
        (Some(segment), Some(alias)) => {
            TypeElement::Edge(alias, segment.arrow, segment.body, segment.target)
        }
    }
}
