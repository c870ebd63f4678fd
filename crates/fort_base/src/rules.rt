//! The rules of the language, by their numbers, in the order of the phases that ask them. The
//! chapter "Table of rules" of docs/LANGUAGE.md; each has a page under docs/rules.
ghost use Rattle.std.specs.Prelude.{◌≡◌};
ghost use Rattle.fort_base.specs.Rules.{rule_name};

use crate::refusal::Rule;

/// The file isn't UTF-8.
pub const NOT_UTF8: Rule = Rule(101);
/// A character begins no token, or directly follows a number that it would go on with, or is a
/// control character in a text.
pub const BAD_CHARACTER: Rule = Rule(102);
/// A comment isn't closed.
pub const OPEN_COMMENT: Rule = Rule(103);
/// A text meets a line feed or the end.
pub const OPEN_TEXT: Rule = Rule(104);
/// In a text `\` isn't followed by `n`, `t`, `"` or `\`.
pub const BAD_ESCAPE: Rule = Rule(105);
/// A number is above 9223372036854775807.
pub const NUMBER_TOO_LARGE: Rule = Rule(106);
/// There are more than 262,144 tokens.
pub const TOO_MANY_TOKENS: Rule = Rule(107);
/// No component has these tokens.
pub const SYNTAX: Rule = Rule(201);
/// A token stands inside more than 100 openers.
pub const TOO_DEEP: Rule = Rule(202);
/// A count passes its limit.
pub const TOO_MANY: Rule = Rule(203);
/// An infix operator has a gap on one side only.
pub const MIXED_SPACING: Rule = Rule(301);
/// A flat expression has no grouping, spacing aside.
pub const NO_PRECEDENCE: Rule = Rule(302);
/// A tight infix node has a loose one as a direct part, or a chain mixes tight and loose operators.
pub const SPACING_CONTRADICTS: Rule = Rule(303);
/// A chain mixes rising and falling operators, or has two or more of which one is `=/=`.
pub const BAD_CHAIN: Rule = Rule(304);
/// Two top-level names of variables or types are one, or a function has a variable's or type's
/// name.
pub const DUPLICATE_NAME: Rule = Rule(401);
/// A type name names no type.
pub const UNKNOWN_TYPE: Rule = Rule(402);
/// A type is above itself by one or more `extends`.
pub const CYCLIC_EXTENDS: Rule = Rule(403);
/// A type extends an object or a built-in leaf.
pub const EXTENDS_OBJECT: Rule = Rule(404);
/// A type is below both sides of a declared exclusion.
pub const EXTENDS_EXCLUDED: Rule = Rule(405);
/// A type directly extends a trait whose `comprises` list hasn't it.
pub const NOT_COMPRISED: Rule = Rule(406);
/// A listed type isn't below the trait.
pub const COMPRISED_NOT_BELOW: Rule = Rule(407);
/// A type has two fields of one name, or gets one that it doesn't declare with different types.
pub const DUPLICATE_MEMBER: Rule = Rule(451);
/// A trait's field is missing in an object below it, or is declared there with a type that isn't
/// below.
pub const FIELD_NOT_BELOW: Rule = Rule(452);
/// Two declarations of a set have equal parameter types.
pub const SAME_PARAMETERS: Rule = Rule(501);
/// Of two ordered declarations the more specific one's result isn't below the other's.
pub const RESULT_NOT_BELOW: Rule = Rule(502);
/// A position of a pair has no common lower type.
pub const NO_MEET: Rule = Rule(503);
/// A tuple of a pair's meets has no declaration.
pub const MEET_NOT_DECLARED: Rule = Rule(504);
/// A position has two unordered arrow types.
pub const ARROW_OVERLAP: Rule = Rule(505);
/// A pair's product of meets is above 4,096.
pub const TOO_WIDE: Rule = Rule(506);
/// An abstract declaration has no concrete one for an object below its trait.
pub const ABSTRACT_NOT_COVERED: Rule = Rule(507);
/// A name, field or method isn't there.
pub const UNKNOWN_NAME: Rule = Rule(601);
/// No declaration of the set is applicable to the static types, and none is with widening.
pub const NOT_APPLICABLE: Rule = Rule(602);
/// A type isn't below the wanted one, or is `Nothing` where that is barred, or there is no widest
/// type.
pub const MISMATCH: Rule = Rule(603);
/// The target of an assignment can't be assigned to.
pub const NOT_ASSIGNABLE: Rule = Rule(604);
/// A declared function's name has nothing after it to be its argument.
pub const FUNCTION_AS_VALUE: Rule = Rule(606);
/// A tight argument isn't in parentheses, or a subscript, exponent or dot directly follows it.
pub const TIGHT_ARGUMENT: Rule = Rule(607);
/// The initial of a top-level variable or of a field isn't a constant.
pub const INITIAL_NOT_CONSTANT: Rule = Rule(608);
/// There is no function `run(): ()`.
pub const NO_RUN: Rule = Rule(609);
/// A generator isn't a range or an array.
pub const NOT_A_GENERATOR: Rule = Rule(610);
/// A thrown or caught type isn't below `Exception`.
pub const NOT_AN_EXCEPTION: Rule = Rule(612);
/// A local name is already visible.
pub const SHADOWS: Rule = Rule(613);
/// Of the declarations applicable with widening none widens least.
pub const WIDENING_UNCLEAR: Rule = Rule(614);
/// Two components or two interfaces have one name, or an interface is named `Executable`.
pub const DUPLICATE_UNIT: Rule = Rule(701);
/// An imported or exported name is that of no interface among the files.
pub const UNKNOWN_API: Rule = Rule(702);
/// An interface is exported by no component, or by several.
pub const NOT_ONE_EXPORTER: Rule = Rule(703);
/// An interface's declaration has no like in its exporter.
pub const NOT_PROVIDED: Rule = Rule(704);
/// Not exactly one component exports `Executable`.
pub const NOT_ONE_MAIN: Rule = Rule(705);
/// A name is declared by another component, and not imported.
pub const NOT_IMPORTED: Rule = Rule(706);
/// The whole has too many declarations, types or tokens.
pub const TOO_MUCH: Rule = Rule(707);

impl Rule {
    /// The rule's name, as notes print it; no bytes where no rule has the number.
    pub fn name(self) -> &'static [u8]
        ensures { result.now ≡ rule_name self }
    {
        match self {
            NOT_UTF8 => b"NotUtf8",
            BAD_CHARACTER => b"BadCharacter",
            OPEN_COMMENT => b"OpenComment",
            OPEN_TEXT => b"OpenText",
            BAD_ESCAPE => b"BadEscape",
            NUMBER_TOO_LARGE => b"NumberTooLarge",
            TOO_MANY_TOKENS => b"TooManyTokens",
            SYNTAX => b"Syntax",
            TOO_DEEP => b"TooDeep",
            TOO_MANY => b"TooMany",
            MIXED_SPACING => b"MixedSpacing",
            NO_PRECEDENCE => b"NoPrecedence",
            SPACING_CONTRADICTS => b"SpacingContradicts",
            BAD_CHAIN => b"BadChain",
            DUPLICATE_NAME => b"DuplicateName",
            UNKNOWN_TYPE => b"UnknownType",
            CYCLIC_EXTENDS => b"CyclicExtends",
            EXTENDS_OBJECT => b"ExtendsObject",
            EXTENDS_EXCLUDED => b"ExtendsExcluded",
            NOT_COMPRISED => b"NotComprised",
            COMPRISED_NOT_BELOW => b"ComprisedNotBelow",
            DUPLICATE_MEMBER => b"DuplicateMember",
            FIELD_NOT_BELOW => b"FieldNotBelow",
            SAME_PARAMETERS => b"SameParameters",
            RESULT_NOT_BELOW => b"ResultNotBelow",
            NO_MEET => b"NoMeet",
            MEET_NOT_DECLARED => b"MeetNotDeclared",
            ARROW_OVERLAP => b"ArrowOverlap",
            TOO_WIDE => b"TooWide",
            ABSTRACT_NOT_COVERED => b"AbstractNotCovered",
            UNKNOWN_NAME => b"UnknownName",
            NOT_APPLICABLE => b"NotApplicable",
            MISMATCH => b"Mismatch",
            NOT_ASSIGNABLE => b"NotAssignable",
            FUNCTION_AS_VALUE => b"FunctionAsValue",
            TIGHT_ARGUMENT => b"TightArgument",
            INITIAL_NOT_CONSTANT => b"InitialNotConstant",
            NO_RUN => b"NoRun",
            NOT_A_GENERATOR => b"NotAGenerator",
            NOT_AN_EXCEPTION => b"NotAnException",
            SHADOWS => b"Shadows",
            WIDENING_UNCLEAR => b"WideningUnclear",
            DUPLICATE_UNIT => b"DuplicateUnit",
            UNKNOWN_API => b"UnknownApi",
            NOT_ONE_EXPORTER => b"NotOneExporter",
            NOT_PROVIDED => b"NotProvided",
            NOT_ONE_MAIN => b"NotOneMain",
            NOT_IMPORTED => b"NotImported",
            TOO_MUCH => b"TooMuch",
            _ => b"",
        }
    }
}
