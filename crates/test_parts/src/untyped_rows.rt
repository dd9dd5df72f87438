//! Programs with class faults and their canonical texts, written by hand from the grammar and the rules of the
//! canonical text.

/// A row has a statement that no well-formed class has, and its canonical text. A line that begins with two dashes is a
/// heading.
pub const UNTYPED: &str = "\
-- Operands of `or`: on the right `or` keeps its parentheses.
write (a + b) or c | write a + b or c
write (a * b) or c | write a * b or c
write a or (b - c) | write a or b - c
write a or (b / c) | write a or b / c
write a or (-b) | write a or - b
write a+b or c | write a + b or c
write a*b or c | write a * b or c
write a or b-c | write a or b - c
write a or b/c | write a or b / c
write a or-b | write a or - b
-- Operands of `and`: `or` keeps them on both sides, `and` on the right.
write (a - b) and c | write a - b and c
write (a / b) and c | write a / b and c
write (-a) and c | write - a and c
write a and (b + c) | write a and b + c
write a and (b % c) | write a and b % c
write a-b and c | write a - b and c
write a/b and c | write a / b and c
write -a and c | write - a and c
write a and b+c | write a and b + c
write a and b%c | write a and b % c
-- Operands of comparisons: `or`, `and` and comparisons keep them on both sides.
write (a < b) < c | write ( a < b ) < c
write (a <= b) <= c | write ( a <= b ) <= c
write (a > b) > c | write ( a > b ) > c
write (a >= b) >= c | write ( a >= b ) >= c
write (not a) > c | write not a > c
write a < (b != c) | write a < ( b != c )
write a <= (b > c) | write a <= ( b > c )
write a > (b >= c) | write a > ( b >= c )
write a >= (b < c) | write a >= ( b < c )
write a > (not b) | write a > not b
write not a>c | write not a > c
write a>not b | write a > not b
-- Operands of sums: the three lower levels keep them on both sides, sums on the right.
write (a or b) + c | write ( a or b ) + c
write (a and b) - c | write ( a and b ) - c
write (a > b) + c | write ( a > b ) + c
write (not a) + c | write not a + c
write a + (b or c) | write a + ( b or c )
write a - (b and c) | write a - ( b and c )
write a + (b >= c) | write a + ( b >= c )
write a + (not b) | write a + not b
write not a+c | write not a + c
write a or b+c | write a or b + c
write a and b-c | write a and b - c
write a+b or c | write a + b or c
write a-b and c | write a - b and c
write a+not b | write a + not b
-- Operands of products: the four lower levels keep them on both sides, products on the right.
write (a or b) * c | write ( a or b ) * c
write (a and b) / c | write ( a and b ) / c
write (a == b) % c | write ( a == b ) % c
write (not a) / c | write not a / c
write a * (b or c) | write a * ( b or c )
write a / (b and c) | write a / ( b and c )
write a % (b != c) | write a % ( b != c )
write a / (not b) | write a / not b
write a * (new C) | write a * new C
write not a/c | write not a / c
write a or b*c | write a or b * c
write a and b/c | write a and b / c
write a*b or c | write a * b or c
write a/b and c | write a / b and c
write a/not b | write a / not b
write a*new C | write a * new C
-- Operands of prefix operators: the five lower levels keep them.
write -(a or b) | write - ( a or b )
write -(a and b) | write - ( a and b )
write -(a < b) | write - ( a < b )
write not (a - b) | write not ( a - b )
write not (a / b) | write not ( a / b )
write -(not a) | write - not a
write not (-a) | write not - a
write -(new C) | write - new C
write not (self) | write not self
write -a or b | write - a or b
write -a and b | write - a and b
write not a-b | write not a - b
write not a/b | write not a / b
write not-a | write not - a
write -not a | write - not a
-- Destinations of sends: the six lower levels keep them.
write (a or b) ! m() | write ( a or b ) ! m ( )
write (a and b) ! m() | write ( a and b ) ! m ( )
write (a == b) ! m() | write ( a == b ) ! m ( )
write (1 + 2) ! m() | write ( 1 + 2 ) ! m ( )
write (1 * 2) ! m() | write ( 1 * 2 ) ! m ( )
write (-x) ! m() | write ( - x ) ! m ( )
write (not x) ! m() | write ( not x ) ! m ( )
write (1) ! m() | write 1 ! m ( )
write (true) ! m() | write true ! m ( )
write (false) ! m() | write false ! m ( )
write (nil) ! m() | write nil ! m ( )
write 1+2!m() | write 1 + 2 ! m ( )
write 1*2!m() | write 1 * 2 ! m ( )
write nil!m() | write nil ! m ( )
write (-(p ! m())) ! n() | write ( - p ! m ( ) ) ! n ( )
write (a + (b)) ! m((c)) | write ( a + b ) ! m ( c )
write ((a ! m()) + (b ! n())) ! k() | write ( a ! m ( ) + b ! n ( ) ) ! k ( )
-- Calls, creations and sends that wait.
(1 + 2) ! m() | ( 1 + 2 ) ! m ( )
(-x) ! m() | ( - x ) ! m ( )
-- Sends that go on: the destination needs the level of a send.
(a or b) !! m() | ( a or b ) !! m ( )
(a and b) !! m() | ( a and b ) !! m ( )
(a == b) !! m() | ( a == b ) !! m ( )
(1 + 2) !! m() | ( 1 + 2 ) !! m ( )
(1 * 2) !! m() | ( 1 * 2 ) !! m ( )
(-x) !! m() | ( - x ) !! m ( )
(not x) !! m() | ( not x ) !! m ( )
((1)) !! m() | 1 !! m ( )
nil !! n() | nil !! n ( )
-- Answers and selects, with plain and answering alternatives.
answer(m,n,m) | answer ( m , n , m )
";

/// A program with several class faults, and its canonical text.
pub const FAULTY: [&str; 2] = [
    "class A var x, x : B body x := (m(1)); y ! n(); answer(k); if (1) then fi end class A body end",
    "class A\nvar x : B\nvar x : B\nbody x := m ( 1 ) ;\ny ! n ( ) ;\nanswer ( k ) ;\nif 1 then fi end\nclass A\nbody end\n",
];
