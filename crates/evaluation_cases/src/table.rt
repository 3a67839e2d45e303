// Written by contrib/expression_table.py; the values are xsltproc's.

pub const TREE: &str = "\
(a
An 1
(b
An 2
-x
(c
)c
(b
An 3
-y
)b
)b
(c
An 4
Am 2
-x
)c
-tail
(b
(a
An 5
(b
-z
)b
)a
(c
-y
)c
)b
)a";

pub const TREE_VALUES: &str = "\
//c[1]/self::node() => [6][10][20]
/a/b[2]/a/self::*[1] => [16]
//@n/self::b[2] => none
//c[1]/child::node()[last()] => [13][21]
/a/b[2]/a/child::*[position() > 1] => none
//@n/child::b[1][1] => none
//c[1]/parent::node()[. = 'x'] => none
/a/b[2]/a/parent::*[position() = last() - 1] => none
//@n/parent::b => [3][7]
//c[1]/descendant::node()[1] => [13][21]
/a/b[2]/a/descendant::*[2] => none
//@n/descendant::b[last()] => none
//c[1]/descendant-or-self::node()[position() > 1] => [13][21]
/a/b[2]/a/descendant-or-self::*[1][1] => [16]
//@n/descendant-or-self::b[. = 'x'] => none
//c[1]/ancestor::node()[position() = last() - 1] => [1]
/a/b[2]/a/ancestor::* => [1][15]
//@n/ancestor::b[1] => [3][7][15]
//c[1]/ancestor-or-self::node()[2] => [1][3][15]
/a/b[2]/a/ancestor-or-self::*[last()] => [1]
//@n/ancestor-or-self::b[position() > 1] => [3]
//c[1]/following::node()[1][1] => [7][14]
/a/b[2]/a/following::*[. = 'x'] => none
//@n/following::b[position() = last() - 1] => [15]
//c[1]/preceding::node() => [3][5][6][7][9][10][13][14][16][18][19]
/a/b[2]/a/preceding::*[1] => [10]
//@n/preceding::b[2] => [3]
//c[1]/following-sibling::node()[last()] => [7][15]
/a/b[2]/a/following-sibling::*[position() > 1] => none
//@n/following-sibling::b[1][1] => none
//c[1]/preceding-sibling::node()[. = 'x'] => [5]
/a/b[2]/a/preceding-sibling::*[position() = last() - 1] => none
//@n/preceding-sibling::b => none
//c[1]/attribute::node()[1] => [11]
/a/b[2]/a/attribute::*[2] => none
//@n/attribute::*[last()] => none
/ => [0]
/* => [1]
//b//b => [7][18]
//b[b] => [3]
//b[b or c][2] => [15]
//*[b[. = 'y']] => [3]
//*[@n > 1][@n < 5] => [3][7][10]
//*[@n][2]/preceding::* => [3][6][7]
(//b)[2] => [7]
(//b)[last()]/.. => [16]
(//b | //c)[3] => [7]
//c | //b | //c => [3][6][7][10][15][18][20]
//@n[. mod 2 = 1]/.. => [1][7][16]
//b[not(b)]/text() => [9][19]
(//a)[2]/ancestor::*[1] => [15]
(//c/preceding::*)[1] => [3]
//c/preceding::*[1] => [7][18]
//b[count(*) = count(preceding-sibling::*)] => [15][18]
//*[position() = last()] => [1][7][15][18][20]
//*[string-length() = 1] => [7][10][16][18][20]
//*[last() > 2][position() mod 2 = 1] => [3][15]
/a/b[2]/*[2]/following::node() => none
//b[@n = ../@n + 1] => [3][7]
//b/@*/../b => [7]
//*[self::b or self::c][@n] => [3][7][10]
//b/.././c => [6][10]
string(//b) => 'xy'
string(//none) => ''
string(//@n[3]) => ''
concat(//c, '-', //b[2], 3, true()) => '-zy3true'
name(//@*[2]) => 'm'
local-name(//b[2]) => 'b'
substring('12345', 2) => '2345'
substring('12345', 2, 3) => '234'
substring('12345', 0, 3) => '12'
substring('12345', -1, 9) => '12345'
substring('12345', number('x'), 3) => ''
substring('héllo', 2, 2) => 'él'
substring-before('a=b=c', '=') => 'a'
substring-after('a=b=c', '=') => 'b=c'
substring-before('abc', 'x') => ''
substring-after('abc', '') => 'abc'
translate('--aaa--', 'abc-', 'ABC') => 'AAA'
translate('abc', 'aa', 'xy') => 'xbc'
normalize-space('  a   b ') => 'a b'
string(1 = 1) => 'true'
string(-3) => '-3'
string(number('x')) => 'NaN'
count(//*) => 9
count(//node() | //@*) => 21
count(//b/ancestor::*) => 4
string-length(//a) => 9
string-length('é') => 1
7 mod 3 => 1
-7 mod 3 => -1
7 mod -3 => 1
12 div 4 * 2 - 1 => 5
-(2 + 3) * -1 => 5
- - 3 => 3
2 - 1 - 1 => 0
number('x') + 1 => NaN
number(' -5 ') => -5
number(true()) => 1
0 div 0 => NaN
floor(3) + ceiling(-4) + round(5) => 4
sum(//@n) => 15
position() + last() => 2
count(//b[1]/following::*) => 5
boolean(//b) => true
boolean(//none) => false
boolean('') => false
boolean('0') => true
boolean(0) => false
boolean(number('x')) => false
not(//none) => true
contains('abc', '') => true
contains('abc', 'bc') => true
starts-with('abc', 'ab') => true
starts-with('abc', 'b') => false
1 or 1 div //none => true
0 and 1 div //none => false
//b and //none => false
'a' = 'b' = false() => true
1 < 2 < 3 => true
3 > 2 > 1 => false
//b = 'y' => true
//b != //b => true
//c[2] = //c[3] => false
not(//b = //c) => false
//@n = 3 => true
'x' < 1 => false
true() = 'false' => true";

pub const NUMBERS: &str = "\
(t
(i
-3
)i
(i
-10
)i
(i
- 7 
)i
(i
-x
)i
(j
-10
)j
(j
--2
)j
(j
)j
(k
Av 3
-3
)k
)t";

pub const NUMBERS_VALUES: &str = "\
//i = //i => true
//i != //i => true
//i < //i => true
//i <= //j => true
//i > //j => true
//i >= //j => true
//i = 3 => true
//i != 3 => true
//i < 3 => false
//i <= '10' => true
//i > '10' => false
//i >= '10' => true
//i = true() => true
//i != true() => false
//i < true() => false
//i <= //none => false
//i > //none => false
//i >= //none => false
//j = //i => true
//j != //i => true
//j < //i => true
//j <= //j => true
//j > //j => true
//j >= //j => true
//j = 3 => false
//j != 3 => true
//j < 3 => true
//j <= '10' => true
//j > '10' => false
//j >= '10' => true
//j = true() => true
//j != true() => false
//j < true() => false
//j <= //none => false
//j > //none => false
//j >= //none => false
3 = //i => true
3 != //i => true
3 < //i => true
3 <= //j => true
3 > //j => true
3 >= //j => true
3 = 3 => true
3 != 3 => false
3 < 3 => false
3 <= true() => false
3 > true() => true
3 >= true() => true
3 = //none => false
3 != //none => false
3 < //none => false
'10' <= //i => true
'10' > //i => true
'10' >= //i => true
'10' = //j => true
'10' != //j => true
'10' < //j => false
'10' <= 3 => false
'10' > 3 => true
'10' >= 3 => true
'10' = '10' => true
'10' != '10' => false
'10' < '10' => false
'10' <= true() => false
'10' > true() => true
'10' >= true() => true
'10' = //none => false
'10' != //none => false
'10' < //none => false
true() <= //i => true
true() > //i => false
true() >= //i => true
true() = //j => true
true() != //j => false
true() < //j => false
true() <= true() => true
true() > true() => false
true() >= true() => true
true() = //none => false
true() != //none => true
true() < //none => false
//none <= //i => false
//none > //i => false
//none >= //i => false
//none = //j => false
//none != //j => false
//none < //j => false
//none <= 3 => false
//none > 3 => false
//none >= 3 => false
//none = '10' => false
//none != '10' => false
//none < '10' => false
//none <= true() => true
//none > true() => false
//none >= true() => false
//none = //none => false
//none != //none => false
//none < //none => false
//*[. > 5] => [4][6][10]
//i[. = //j] => [4]
//i[. != //j][last()] => [8]
//*[number() = 3] => [2][15]
//*[. = @v] => [15]
/t/*[position() > count(/t/i)] => [10][12][14][15]
//j[not(. = //i)] => [12][14]
//i[sum(//j[. < 5] | ../k) = 1] => [2][4][6][8]
sum(//j[position() < 3]) => 8
sum(//i) => NaN
sum(//none) => 0
number(//k) => 3
//k * //i => 9
//i - //j => -7";

pub const MIXED: &str = "\
Ctop
?p top
(d
Axml:lang en-GB
Axmlns:p urn:p
Cin
(p:e
Ap:k 1
Ak 2
-one
?p one
)p:e
(e
Axml:lang fr
Ck
-two
(p:f
-three
)p:f
)e
?q end
)d
Cend";

pub const MIXED_VALUES: &str = "\
/node() => [1][2][3][18]
//comment() => [1][5][13][18]
//processing-instruction() => [2][10][17]
//processing-instruction('p') => [2][10]
//comment()[2] => [18]
/d/node()[last()] => [17]
//@* => [4][7][8][12]
//*[lang('en')] => [3][6]
//*[lang('EN-gb')] => [3][6]
//*[lang('fr')] => [11][15]
//*[namespace-uri() = 'urn:p'] => [6][15]
//*[local-name() = 'e'] => [6][11]
//*[name() = 'e'] => [11]
//@*[namespace-uri() = 'urn:p'] => [7]
/d/preceding::node() => [1][2]
/d/following::node() => [18]
//text()[. = 'three']/preceding::node()[2] => [13]
name(//*[2]) => 'e'
name(//@*[2]) => 'k'
local-name(//*[2]) => 'e'
namespace-uri(//*[2]) => ''
namespace-uri(//*[3]) => ''
name(//processing-instruction()[1]) => 'p'
string(//comment()[2]) => 'end'
string(/) => 'onetwothree'
string(//processing-instruction('q')) => 'end'
local-name(/) => ''
lang('en') => false
//comment() = 'in' => true
//@* = 'fr' => true";

pub const BOOK: &str = "\
(book
(chapter
Atitle One
(section
(para
- a  b 
)para
(para
-B
)para
)section
(section
(para
-c
)para
)section
)chapter
(chapter
Atitle Two
(para
-d
)para
(note
Aref One
-see
)note
(section
(para
-e
)para
(section
(para
-f
)para
)section
)section
)chapter
)book";

pub const BOOK_VALUES: &str = "\
//note/self::*[position() > 1] => none
/book/chapter/section/self::para[1][1] => none
//para[1]/self::text()[. = 'x'] => none
//note/child::*[position() = last() - 1] => none
/book/chapter/section/child::para => [5][7][10][20]
//para[1]/child::text()[1] => [6][11][15][21][24]
//note/parent::*[2] => none
/book/chapter/section/parent::para[last()] => none
//para[1]/parent::text()[position() > 1] => none
//note/descendant::*[1][1] => none
/book/chapter/section/descendant::para[. = 'x'] => none
//para[1]/descendant::text()[position() = last() - 1] => none
//note/descendant-or-self::* => [16]
/book/chapter/section/descendant-or-self::para[1] => [5][10][20]
//para[1]/descendant-or-self::text()[2] => none
//note/ancestor::*[last()] => [1]
/book/chapter/section/ancestor::para[position() > 1] => none
//para[1]/ancestor::text()[1][1] => none
//note/ancestor-or-self::*[. = 'x'] => none
/book/chapter/section/ancestor-or-self::para[position() = last() - 1] => none
//para[1]/ancestor-or-self::text() => none
//note/following::*[1] => [19]
/book/chapter/section/following::para[2] => [14][20]
//para[1]/following::text()[last()] => [24]
//note/preceding::*[position() > 1] => [2][4][5][7][9][10]
/book/chapter/section/preceding::para[1][1] => [7][14]
//para[1]/preceding::text()[. = 'x'] => none
//note/following-sibling::*[position() = last() - 1] => none
/book/chapter/section/following-sibling::para => none
//para[1]/following-sibling::text()[1] => none
//note/preceding-sibling::*[2] => none
/book/chapter/section/preceding-sibling::para[last()] => [14]
//para[1]/preceding-sibling::text()[position() > 1] => none
//note/attribute::*[1][1] => [17]
/book/chapter/section/attribute::*[. = 'x'] => none
//para[1]/attribute::*[position() = last() - 1] => none
/book/chapter[@title = /book/chapter/note/@ref] => [2]
//section[.//para[2]] => [4]
//section//para[1] => [5][10][20][23]
//para[ancestor::section[2]] => [23]
//para[ancestor::section][last()] => [7][10][20][23]
(//para[ancestor::section])[last()] => [23]
//section[para][last()]/ancestor::chapter/@title => [3][13]
//chapter[2]//para[position() = 1] => [14][20][23]
/descendant::para[3] => [10]
//note/preceding-sibling::*[1] | //note/following-sibling::*[1] => [14][19]
/book/chapter[2]/*[self::note]/following::para[2] => [23]
//para[. = normalize-space()] => [7][10][14][20][23]
//*[count(ancestor::*) = 3] => [5][7][10][20][22]
//section[not(section)]/*[1] => [5][10][23]
//section/section/ancestor-or-self::*[2] => [19]
string(//chapter[2]) => 'dseeef'
normalize-space(//para) => 'a b'
concat(//para, '|', //para[2]) => ' a  b |B'
count(//para/..) => 5
count(//section/descendant::*/ancestor::*) => 7
string-length(//para) => 6";
