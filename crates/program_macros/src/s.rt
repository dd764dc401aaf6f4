//! The file tmac.s.

/// Its text.
pub(crate) static TEXT: &[u8] = b"\
.\\\" tmac.s: papers (nroff -ms). nroff_ms(7) says what each name does.\n\
.\\\"\n\
.\\\" Cover       .RP no   .TL   .AU   .AI   .AB no .AE   .DA date   .ND date   .P1\n\
.\\\" Headings    .NH level   .NH S number ..   .SH     (texts on the lines below)\n\
.\\\" Paragraphs  .PP .LP .QP .XP   .IP tag width   .QS .QE   .RS .RE   .RT\n\
.\\\" Fonts       .B .I .R .BI .CW .UL .BX word behind before   .LG .SM .NL   .UX\n\
.\\\" Displays    .DS kind .DE kept together   .ID .LD .CD .BD .RD not   .B1 .B2\n\
.\\\" Keeps       .KS .KF .KE        Notes  \\** and then .FS mark .FE\n\
.\\\" Tables      .TS H .TH .TE      Equations  .EQ kind number .EN   .PS .PE\n\
.\\\" References  of refer .]- .][ kind .]< .]>\n\
.\\\" Contents    .XS page indent .XA .XE   .PX no   .TC no   .XN words .XH level words\n\
.\\\" Others      .SC .P2 .UC .SG .CT, addresses .MH .HO .WH .IH .PY\n\
.\\\" Of groff    .als .nop, and of www.tmac .URL .FTP .MTO .DC .ULS .OLS .DLS .LI\n\
.\\\" Titles      .OH .EH .OF .EF 'left'centre'right'   strings LH CH RH LF CF RF\n\
.\\\" Columns     .2C   .MC width gap   .1C\n\
.\\\" Registers   LL LT FL PO HM FM PI QI DI FI PD DD FPD in u, PS VS FF PORPHANS\n\
.\\\"             HORPHANS, H1 to H8, PN\n\
.\\\" Options     -rLN lines of N cells (60), -rB1 title and headings in bold\n\
.\\\"\n\
.\\\" Long names are on (.cp 0). A width without a scale letter counts cells.\n\
.\\\"\n\
.\\\" Private names begin with \")\". Registers:\n\
.\\\"   )left )right margins of .RS and .QS, )pleft )pright those of a paragraph in\n\
.\\\"   them, )width that of tags, )depth with )left1, )left2 .. the ones before\n\
.\\\"   )cover 1 while its parts are set apart, 2 behind them, )titling 1 in the title,\n\
.\\\"   )names 1 after .AU, )institution 1 after .AI,\n\
.\\\"   )abstract 1 in it, )report 1 after .RP, )again 1 if the title comes again\n\
.\\\"   )begun 1 from the first page on, )first 1 for a header on it, )aside 1 on a page\n\
.\\\"   without header and footer, )top the first place below the header or of the columns,\n\
.\\\"   )columns how many, )column this one, )gap between two, )all-LL )all-FL of the page,\n\
.\\\"   )low lowest place of them   )wide height of notes from above them\n\
.\\\"   )kind of a display   )keep depth of keeps, )keeping that of the one that is set apart\n\
.\\\"   )boxed depth of boxes, )box-keep that of keeps around them\n\
.\\\"   )float 1 in a keep that floats: of )kept )shown were printed, )wait1 .. are the\n\
.\\\"   heights of )keep1 .., )floating 1 while they are printed\n\
.\\\"   )marks numbers of notes in the text, )mark in notes   )raw notes not set yet, with\n\
.\\\"   )room kept for them, )noted height of the set ones of this page, )later of the next\n\
.\\\"   )font 1 while text is roman, 2 in italics, 3 in bold, )centred 1 while lines are centred\n\
.\\\"   )row 1 while a line is kept aside, )rows its height, )set-apart1 1 if the footer\n\
.\\\"   does so, with )footers depth of footers\n\
.\\\"   )in-table 1 in a table, )flat 1 where a paragraph of it is in no block, )head height\n\
.\\\"   of its head   )level of a heading, )style and )sn 1 for numbers without a point\n\
.\\\" Private texts: )title )abstract-text, )tag-text )item )note-mark, )kept-text, )keepN, )raw-notes, )notes, )notes-later, )notes-over,\n\
.\\\"   )line (kept aside), )contents, )head-text, )oh )eh )of )ef titles\n\
.cp 0\n\
.ds REFERENCES References\n\
.ds ABSTRACT ABSTRACT\n\
.ds TOC Table of Contents\n\
.ds MONTH1 January\n\
.ds MONTH2 February\n\
.ds MONTH3 March\n\
.ds MONTH4 April\n\
.ds MONTH5 May\n\
.ds MONTH6 June\n\
.ds MONTH7 July\n\
.ds MONTH8 August\n\
.ds MONTH9 September\n\
.ds MONTH10 October\n\
.ds MONTH11 November\n\
.ds MONTH12 December\n\
.ds MO\n\
.ds DY\n\
.ds Q \"\\(dq\n\
.ds U \"\\(dq\n\
.ds - \\(em\n\
.ds * [\\\\n+[)marks]]\n\
.ds {\n\
.ds }\n\
.ds <\n\
.ds >\n\
.ds CH -\\\\n(PN-\n\
.ds )oh \\a\\\\*(LH\\a\\\\*[)blank]\\\\*(CH\\a\\\\*(RH\\a\n\
.ds )eh \\a\\\\*(LH\\a\\\\*[)blank]\\\\*(CH\\a\\\\*(RH\\a\n\
.ds )of \\a\\\\*(LF\\a\\\\*[)blank]\\\\*(CF\\a\\\\*(RF\\a\n\
.ds )ef \\a\\\\*(LF\\a\\\\*[)blank]\\\\*(CF\\a\\\\*(RF\\a\n\
.ds )unix (R)\n\
.ds )bullet1 \\(bu\n\
.ds )bullet2 []\n\
.ds )bullet3 --\n\
.nr )marks 0 1\n\
.nr )mark 0 1\n\
.\\\" accents: letters stand without them\n\
.ds '\n\
.ds `\n\
.ds ^\n\
.ds ,\n\
.ds :\n\
.ds ~\n\
.ds v\n\
.ds _\n\
.ds o\n\
.ds .\n\
.ds /\n\
.ds hook\n\
.ds C\n\
.ds q o\n\
.ds 3 3\n\
.ds D- D\n\
.ds d- d\n\
.ds Th Th\n\
.ds th th\n\
.ds 8 ss\n\
.ds Ae AE\n\
.ds ae ae\n\
.ds Oe OE\n\
.ds oe oe\n\
.ds ? ?\n\
.ds ! !\n\
.de AM\n\
..\n\
.\\\" ---- pages\n\
.\\\" what the first page fixes\n\
.de )begin\n\
.nr )begun 1\n\
.if !\\\\n(PO .nr PO \\\\n(.o\n\
.if !\\\\n(LT .nr LT \\\\n(LL\n\
.if !\\\\n(FL .nr FL \\\\n(LL*5/6\n\
.if !\\\\n(VS .nr VS \\\\n(PS+2\n\
.if \\\\n(PS>999 .if \\\\n(VS<1000 .nr VS \\\\n(PS+2000\n\
..\n\
.\\\" header; a page aside has none\n\
.de )header\n\
.if !\\\\n[)begun] .)begin\n\
.nr PN \\\\n%\n\
.nr )column 1\n\
.po \\\\n(POu\n\
.rs\n\
'sp \\\\n(HMu/2u\n\
.if !\\\\n[)aside] \\{\\\n\
.lt \\\\n(LTu\n\
.ft R\n\
.)middle \\\\*(CH\n\
.PT\n\
.ft P\n\
.HD\n\
.\\}\n\
'sp |\\\\n(HMu\n\
.nr )top \\\\n(nl\n\
.if \\\\n[)later] .)notes-wait\n\
.)place\n\
.ns\n\
..\n\
.\\\" where the rest is odd the middle stands a blank further to the right\n\
.de )middle\n\
.ds )blank\n\
.ds )middle-text \\\\$1 \\\\$2 \\\\$3 \\\\$4 \\\\$5 \\\\$6 \\\\$7 \\\\$8 \\\\$9\n\
.nr )w \\\\n(LT-\\w\\a\\\\*[)middle-text]\\a/24%2\n\
.if \\\\n()w>0 .ds )blank \"\\ \\&\n\
..\n\
.de PT\n\
.ie \\\\n%=1 .if \\\\n[)first] .tl \\\\*[)oh]\n\
.el \\{\\\n\
.ie o .tl \\\\*[)oh]\n\
.el .tl \\\\*[)eh]\n\
.\\}\n\
..\n\
.de BT\n\
.ie o .tl \\\\*[)of]\n\
.el .tl \\\\*[)ef]\n\
..\n\
.de P1\n\
.ie \\\\n[)bell] .DS L\n\
.el .nr )first 1\n\
..\n\
.\\\" the words of a macro with a blank between two of them, as )joined; definitions take this in\n\
.de )join\n\
.ds )joined \"\\\\\\\\$1\n\
.if !\\a\\\\\\\\$2\\a\\a .as )joined \" \\\\\\\\$2\n\
.if !\\a\\\\\\\\$3\\a\\a .as )joined \" \\\\\\\\$3\n\
.if !\\a\\\\\\\\$4\\a\\a .as )joined \" \\\\\\\\$4\n\
.if !\\a\\\\\\\\$5\\a\\a .as )joined \" \\\\\\\\$5\n\
.if !\\a\\\\\\\\$6\\a\\a .as )joined \" \\\\\\\\$6\n\
.if !\\a\\\\\\\\$7\\a\\a .as )joined \" \\\\\\\\$7\n\
.if !\\a\\\\\\\\$8\\a\\a .as )joined \" \\\\\\\\$8\n\
.if !\\a\\\\\\\\$9\\a\\a .as )joined \" \\\\\\\\$9\n\
..\n\
.de OH\n\
\\*[)join].ds )oh \"\\\\*[)joined]\n\
..\n\
.de EH\n\
\\*[)join].ds )eh \"\\\\*[)joined]\n\
..\n\
.de OF\n\
\\*[)join].ds )of \"\\\\*[)joined]\n\
..\n\
.de EF\n\
\\*[)join].ds )ef \"\\\\*[)joined]\n\
..\n\
.\\\" notes that waited for this page\n\
.de )notes-wait\n\
.rn )notes-later )notes\n\
.nr )noted \\\\n[)later]\n\
.nr )later 0\n\
..\n\
.\\\" place of the footer, above the notes and the line before them\n\
.de )place\n\
.ch )footer\n\
.nr )w \\\\n[)noted]+\\\\n[)room]\n\
.if \\\\n()w .nr )w +40u\n\
.if \\\\n[)wide] .nr )w +\\\\n[)wide]+40u\n\
.nr )w \\\\n(.p-\\\\n(FM-\\\\n()w\n\
.if \\\\n()w<(\\\\n(HM+120u) .nr )w \\\\n(HM+120u\n\
.if \\\\n()w<=\\\\n(nl .nr )w \\\\n(nl+40u\n\
.wh \\\\n()wu )footer\n\
..\n\
.\\\" footer, with the notes above it; its trap is out of the way meanwhile. The line under\n\
.\\\" way is kept aside where something is put before it\n\
.de )footer\n\
.rs\n\
.ch )footer\n\
.nr )w \\\\n[)raw]+\\\\n[)noted]+\\\\n[)wide]+\\\\n[)head]+\\\\n[)kept]-\\\\n[)shown]\n\
.nr )footers +1\n\
.nr )set-apart\\\\n[)footers] \\\\n()w>0\n\
.if \\\\n()w .)aside\n\
.if \\\\n[)raw] .)set-at-bottom\n\
.nr )room 0\n\
.if \\\\n[)noted] .)print-notes\n\
.if \\\\n(nl>\\\\n[)low] .nr )low \\\\n(nl\n\
.ie \\\\n[)column]<\\\\n[)columns] .)next-column\n\
.el .)end-page\n\
.)place\n\
.if !\\\\n[)floating] .if \\\\n[)kept]>\\\\n[)shown] .)floats\n\
.if \\\\n[)head] .)print-head\n\
.if \\\\n[)set-apart\\\\n[)footers]] .)back\n\
.nr )footers -1\n\
..\n\
.de )end-page\n\
.po \\\\n(POu\n\
.if \\\\n[)wide] .)print-wide-notes\n\
.nr )low 0\n\
'sp |(\\\\n(.pu-(\\\\n(FMu/2u))\n\
.if !\\\\n[)aside] \\{\\\n\
.lt \\\\n(LTu\n\
.ft R\n\
.)middle \\\\*(CF\n\
.BT\n\
.ft P\n\
.\\}\n\
'bp\n\
..\n\
.\\\" where the columns of this page begin, further to the right\n\
.de )next-column\n\
.nr )column +1\n\
.nr )o \\\\n(LL+\\\\n[)gap]*(\\\\n[)column]-1)+\\\\n(PO\n\
.po \\\\n()ou\n\
'sp |\\\\n[)top]u\n\
.if \\\\n[)later] .)notes-wait\n\
.ns\n\
..\n\
.\\\" the line under way is kept aside; it comes back as one word\n\
.de )aside\n\
.nr )row +1\n\
.if \\\\n[)row]=1 \\{\\\n\
.di )line\n\
.br\n\
.di\n\
.nr )rows \\\\n(dn\n\
.\\}\n\
..\n\
.de )back\n\
.nr )row -1\n\
.if !\\\\n[)row] .if \\\\n[)rows] \\{\\\n\
.nr )rows 0\n\
'ti 0\n\
\\&\\\\*[)line]\\|\n\
.\\}\n\
..\n\
.\\\" room, but for what stands at a page's top\n\
.de )need\n\
.if \\\\n(nl>\\\\n[)top] .if '\\\\n(.z'' .if \\\\n(.t<(\\\\$1) \\{\\\n\
.rs\n\
'sp \\\\n(.tu\n\
.\\}\n\
..\n\
.\\\" end: what is open is closed, what waits for the next page gets one\n\
.de )end\n\
.if \\\\n[)cover]=1 .)print-cover\n\
.)close\n\
.br\n\
.if \\\\n[)raw] .)set-now\n\
.if \\\\n[)aside] .)end-aside\n\
.)last\n\
..\n\
.\\\" what was begun and has no end ends, from the inside\n\
.de )close\n\
.)close-inner\n\
.if \\\\n[)closed] .)close\n\
.if \\\\n[)kind] .DE\n\
..\n\
.de )close-inner\n\
.nr )closed 1\n\
.ie '\\\\n(.z')equation' .)end-equation\n\
.el .ie '\\\\n(.z')head-text' .)end-head\n\
.el .ie '\\\\n(.z')block' .)end-block\n\
.el .ie '\\\\n(.z')box' .)end-box\n\
.el .ie '\\\\n(.z')kept-text' .)end-keep\n\
.el .ie '\\\\n(.z')entry-text' .)end-entry\n\
.el .nr )closed 0\n\
..\n\
.\\\" the same of what was begun inside this\n\
.de )close-to\n\
.if !'\\\\n(.z'\\\\$1' \\{\\\n\
.)close-inner\n\
.if \\\\n[)closed] .)close-to \\\\$1\n\
.\\}\n\
..\n\
.\\\" ends the page, and those that are needed for what waits\n\
.de )last\n\
.if '\\\\n(.z'' .)last-pages\n\
..\n\
.de )last-pages\n\
.nr )column \\\\n[)columns]\n\
.if \\\\n(nl \\{\\\n\
.rs\n\
.bp\n\
.\\}\n\
.if \\\\n[)later]+\\\\n[)noted]+\\\\n[)kept]-\\\\n[)shown] \\{\\\n\
.if !\\\\n(nl \\{\\\n\
.bp\n\
.rs\n\
.bp\n\
.\\}\n\
.)last\n\
.\\}\n\
..\n\
.\\\" how lines are adjusted is remembered, since a title is centred meanwhile\n\
.rn ad )ad\n\
.rn na )na\n\
.de ad\n\
.nr )ragged 0\n\
.if \\\\n(.$ .ds )adjust \\\\$1\n\
.)ad \\\\*[)adjust]\n\
..\n\
.de na\n\
.nr )ragged 1\n\
.)na\n\
..\n\
.ds )adjust b\n\
.\\\" ---- cover\n\
.de RP\n\
.nr )report 1\n\
.nr )again 1\n\
.if '\\\\$1'no' .nr )again 0\n\
.nr )aside 1\n\
.pn 0\n\
..\n\
.de DA\n\
\\*[)join].if \\\\n(.$ .ds DY \"\\\\*[)joined]\n\
.ds CF \\\\*(DY\n\
..\n\
.de ND\n\
\\*[)join].if \\\\n(.$ .ds DY \"\\\\*[)joined]\n\
..\n\
.\\\" a part of the cover: set apart before the first paragraph, else where it is\n\
.de )part\n\
.ie \\\\n[)cover]<2 \\{\\\n\
.)close-part\n\
.nr )cover 1\n\
.da )title\n\
.\\}\n\
.el .)reset\n\
..\n\
.de )close-part\n\
.if \\\\n[)abstract] .)close\n\
.br\n\
.if '\\\\n(.z')title' .if \\\\n[)titling] .sp\n\
.if \\\\n[)cover]=1 .if !'\\\\n(.z'' .di\n\
.if \\\\n[)abstract] \\{\\\n\
.nr )abstract 0\n\
.nr )left 0\n\
.nr )right 0\n\
.nr )has-abstract 1\n\
.\\}\n\
.ce 0\n\
.nr )centred 0\n\
.if \\\\n[)titling] \\{\\\n\
.nr )titling 0\n\
.rn nf )title-nf\n\
.rn )nf nf\n\
.rn fi )title-fi\n\
.rn )fi fi\n\
.\\}\n\
.)ad \\\\*[)adjust]\n\
.if \\\\n[)ragged] .)na\n\
.fi\n\
.)set-font 1\n\
.in 0\n\
.ll \\\\n(LLu\n\
..\n\
.\\\" the title is filled, each line in the middle; the names are lines as they are\n\
.de TL\n\
.)part\n\
.ie \\\\n[)cover]=2 \\{\\\n\
.sp\n\
.)centre\n\
.)strong\n\
.\\}\n\
.el \\{\\\n\
.in \\\\n(LLu/12u\n\
.ll \\\\n(LLu-(\\\\n(LLu/12u)\n\
.)ad c\n\
.nr )titling 1\n\
.rn nf )nf\n\
.rn )title-nf nf\n\
.rn fi )fi\n\
.rn )title-fi fi\n\
.if \\\\nB .)set-font 3\n\
.\\}\n\
..\n\
.\\\" lines of the title as they are stand in the middle too\n\
.de )title-nf\n\
.br\n\
.ce 10000\n\
..\n\
.de )title-fi\n\
.ce 0\n\
..\n\
.\\\" a row above the first names, and above those after an institution\n\
.de AU\n\
.)part\n\
.ie \\\\n[)names] .if \\\\n[)institution] .sp\n\
.el .sp\n\
.nr )names 1\n\
.nr )institution 0\n\
.)centre\n\
.if \\\\nB .)set-font 2\n\
..\n\
.de AI\n\
.)part\n\
.nr )institution 1\n\
.)centre\n\
..\n\
.de )centre\n\
.nr )centred 1\n\
.ce 10000\n\
..\n\
.de AB\n\
.)close-part\n\
.nr )cover 1\n\
.da )abstract-text\n\
.nr )abstract \\\\n(LL/12\n\
.nr )left \\\\n[)abstract]\n\
.nr )right \\\\n[)abstract]\n\
.if !'\\\\$1'no' \\{\\\n\
.ce\n\
\\&\\fI\\\\*[ABSTRACT]\\fR\n\
.sp\n\
.\\}\n\
.ns\n\
.)start 0 0\n\
.ti +\\\\n(PIu\n\
..\n\
.de AE\n\
.if \\\\n[)abstract] .)print-cover\n\
..\n\
.de )print-cover\n\
.if \\\\n[)cover]=1 .)print-parts\n\
..\n\
.de )print-parts\n\
.)close-part\n\
.nr )cover 2\n\
.ie \\\\n[)report] .)print-report\n\
.el \\{\\\n\
.rs\n\
.sp 3\n\
.)title\n\
.if \\\\n[)has-abstract] \\{\\\n\
.sp 2\n\
.)abstract-text\n\
.\\}\n\
.if \\\\n[)raw] .)set-now\n\
.sp\n\
.\\}\n\
.rm )title\n\
.rm )abstract-text\n\
.)reset\n\
..\n\
.\\\" a page of its own, and the title again on the next\n\
.de )print-report\n\
.rs\n\
.sp 3\n\
.)title\n\
.sp 3\n\
.if \\\\n[)has-abstract] .)abstract-text\n\
.sp 3\n\
\\&\\\\*(DY\n\
.br\n\
.if \\\\n[)raw] .)set-now\n\
.)end-aside\n\
.if \\\\n[)again] \\{\\\n\
.sp\n\
.rs\n\
.sp 3\n\
.)title\n\
.\\}\n\
.sp\n\
..\n\
.de )end-aside\n\
.rs\n\
.bp 1\n\
.nr )aside 0\n\
..\n\
.\\\" ---- paragraphs\n\
.\\\" settings that each of them begins with\n\
.de )reset\n\
.br\n\
.ft R\n\
.nr )font 1\n\
.ie \\\\n[)in-table] .)reset-block\n\
.el .)reset-lines\n\
..\n\
.\\\" in a table: in a text block its indent, which counts from there, else nothing\n\
.de )reset-block\n\
.nr )flat 0\n\
.ie '\\\\n(.z'\\\\*[)table-in]' .nr )flat 1\n\
.el .in \\\\n[)pleft]u\n\
..\n\
.de )reset-lines\n\
.if \\\\n[)cover]<2 .)before-text\n\
.ce 0\n\
.nr )centred 0\n\
.ul 0\n\
.fi\n\
.ie \\\\n(VS>999 .vs \\\\n(VSp/1000u\n\
.el .if \\\\n(VS .vs \\\\n(VSp\n\
.ll \\\\n(LLu-\\\\n[)right]u-\\\\n[)pright]u\n\
.in \\\\n[)left]u+\\\\n[)pleft]u\n\
.TA\n\
.if \\\\n[)raw] .if !\\\\n[)keep] .if '\\\\n(.z'' .)set-now\n\
..\n\
.de )before-text\n\
.if !\\\\n[)abstract] \\{\\\n\
.ie \\\\n[)cover] .)print-cover\n\
.el .nr )cover 2\n\
.\\}\n\
.if \\\\n[)aside] .if !\\\\n[)abstract] .)end-aside\n\
..\n\
.de TA\n\
.ta 5 10 15 20 25 30 35 40 45 50 55 60 65 70 75 80 85 90 95 100 105 110 115 120\n\
..\n\
.\\\" begins one with margins of its own\n\
.de )start\n\
.if \\\\n[)in-equation] .EN\n\
.if \\\\n[)kind] .DE\n\
.nr )pleft \\\\$1\n\
.nr )pright \\\\$2\n\
.)reset\n\
.sp \\\\n(PDu\n\
.ne \\\\n[PORPHANS]v+1v\n\
..\n\
.de )finish\n\
.nr )pleft 0\n\
.nr )pright 0\n\
.)reset\n\
..\n\
.de RT\n\
.)finish\n\
..\n\
.de LP\n\
.nr )width \\\\n(PI\n\
.)start 0 0\n\
..\n\
.de PP\n\
.nr )width \\\\n(PI\n\
.)start 0 0\n\
.ti +\\\\n(PIu\n\
..\n\
.de QP\n\
.nr )width \\\\n(PI\n\
.)start \\\\n(QI \\\\n(QI\n\
..\n\
.de XP\n\
.)start \\\\n(PI 0\n\
.if !\\\\n[)flat] .ti -\\\\n(PIu\n\
..\n\
.\\\" paragraph with a tag, whose blanks stay as they are\n\
.de IP\n\
.if \\\\n(.$>1 .nr )width 0\n\
.if \\\\n(.$>1 .nr )width \\\\$2n\n\
.)start \\\\n[)width] 0\n\
.ds )tag-text \"\\\\$1\n\
.nr )w \\w\\a\\\\$1\\a\n\
.ie \\\\n[)flat] \\&\\\\$1\\ \\c\n\
.el .if \\\\n()w .)tag\n\
..\n\
.de )tag\n\
.ti -\\\\n[)width]u\n\
.ie \\\\n()w<\\\\n[)width] \\{\\\n\
'nf\n\
\\&\\\\*[)tag-text]\\h\\a|\\\\n[)width]u\\a\\c\n\
'fi\n\
.\\}\n\
.el \\{\\\n\
\\&\\\\*[)tag-text]\n\
.br\n\
.\\}\n\
..\n\
.\\\" margins: kept, and as they were\n\
.de )keep-margins\n\
.br\n\
.nr )depth +1\n\
.nr )left\\\\n[)depth] \\\\n[)left]\n\
.nr )right\\\\n[)depth] \\\\n[)right]\n\
.nr )width\\\\n[)depth] \\\\n[)width]\n\
.nr )pleft\\\\n[)depth] \\\\n[)pleft]\n\
.nr )pright\\\\n[)depth] \\\\n[)pright]\n\
..\n\
.de )margins-before\n\
.br\n\
.if \\\\n[)depth] \\{\\\n\
.nr )left \\\\n[)left\\\\n[)depth]]\n\
.nr )right \\\\n[)right\\\\n[)depth]]\n\
.nr )width \\\\n[)width\\\\n[)depth]]\n\
.nr )pleft \\\\n[)pleft\\\\n[)depth]]\n\
.nr )pright \\\\n[)pright\\\\n[)depth]]\n\
.nr )depth -1\n\
.\\}\n\
..\n\
.de RS\n\
.if \\\\n[)cover]<2 .)reset\n\
.)keep-margins\n\
.nr )left +\\\\n[)width]\n\
.nr )width \\\\n(PI\n\
.)reset\n\
..\n\
.de RE\n\
.)margins-before\n\
.)reset\n\
..\n\
.de QS\n\
.if \\\\n[)cover]<2 .)reset\n\
.)keep-margins\n\
.nr )left +\\\\n(QI\n\
.nr )right +\\\\n(QI\n\
.nr )width \\\\n(PI\n\
.)start 0 0\n\
..\n\
.de QE\n\
.)margins-before\n\
.)start 0 0\n\
..\n\
.\\\" ---- headings\n\
.de )heading\n\
.if \\\\n[)in-equation] .EN\n\
.if \\\\n[)abstract] .AE\n\
.)finish\n\
.ne 3v+\\\\n[HORPHANS]v+\\\\n(PDu\n\
.sp\n\
.ti \\\\n(.iu\n\
.)strong\n\
..\n\
.\\\" the font of headings: bold where that is asked for, else italics\n\
.de )strong\n\
.ie \\\\nB .)set-font 3\n\
.el .)set-font 2\n\
..\n\
.de SH\n\
.if \\\\n[)kind] .DE\n\
.)heading\n\
..\n\
.de NH\n\
.if \\\\n[)kind] .DE\n\
.ie '\\\\$1'S' .)set-numbers \\\\$2 \\\\$3 \\\\$4 \\\\$5 \\\\$6 \\\\$7 \\\\$8 \\\\$9\n\
.el .)next-number \\\\$1\n\
.ds SN-NO-DOT \\\\n(H1\n\
.nr )i 1\n\
.if \\\\n[)level]>1 .)add-number\n\
.ds SN-DOT \\\\*[SN-NO-DOT].\n\
.ie \\\\n[)sn] .ds SN \\\\*[SN-NO-DOT]\n\
.el .ds SN \\\\*[SN-DOT]\n\
.ie \\\\n[)style] .ds SN-STYLE \\\\*[SN-NO-DOT]\n\
.el .ds SN-STYLE \\\\*[SN-DOT]\n\
.)heading\n\
.if !\\\\nB .ft R\n\
\\&\\\\*[SN-STYLE]\n\
.)strong\n\
..\n\
.de )set-numbers\n\
.nr )level \\\\n(.$\n\
.if !\\\\n(.$ .nr )level 1\n\
.nr H1 1\n\
.nr H1 \\\\$1\n\
.nr H2 \\\\$2\n\
.nr H3 \\\\$3\n\
.nr H4 \\\\$4\n\
.nr H5 \\\\$5\n\
.nr H6 \\\\$6\n\
.nr H7 \\\\$7\n\
.nr H8 \\\\$8\n\
..\n\
.de )next-number\n\
.nr )i \\\\n[)level]\n\
.nr )level 1\n\
.if \\\\n(.$ .nr )level 0\n\
.if \\\\n(.$ .nr )level \\\\$1\n\
.if \\\\n[)level]<1 \\{\\\n\
.nr )i 0\n\
.nr )level 1\n\
.\\}\n\
.if \\\\n[)level]>9 .nr )level 9\n\
.if \\\\n[)level]>\\\\n()i .)no-number\n\
.nr H\\\\n[)level] +1\n\
..\n\
.de )no-number\n\
.nr )i +1\n\
.nr H\\\\n()i 0\n\
.if \\\\n[)level]>\\\\n()i .)no-number\n\
..\n\
.de )add-number\n\
.nr )i +1\n\
.as SN-NO-DOT .\\\\n[H\\\\n()i]\n\
.if \\\\n[)level]>\\\\n()i .)add-number\n\
..\n\
.\\\" of groff: what numbers of headings look like\n\
.de als\n\
.if '\\\\$1'SN-STYLE' .ie '\\\\$2'SN-NO-DOT' .nr )style 1\n\
.if '\\\\$1'SN-STYLE' .el .nr )style 0\n\
.if '\\\\$1'SN' .ie '\\\\$2'SN-NO-DOT' .nr )sn 1\n\
.if '\\\\$1'SN' .el .nr )sn 0\n\
..\n\
.\\\" of later groff: the text of a heading, and an entry of the contents\n\
.de XN\n\
\\&\\\\$1 \\\\$2 \\\\$3 \\\\$4 \\\\$5 \\\\$6 \\\\$7 \\\\$8 \\\\$9\n\
\\*[)join].XS\n\
\\\\*[SN]\\0 \\\\*[)joined]\n\
.XE\n\
..\n\
.de XH\n\
\\&\\\\$2 \\\\$3 \\\\$4 \\\\$5 \\\\$6 \\\\$7 \\\\$8 \\\\$9\n\
.ds )joined \"\\\\$2\n\
.if !\\a\\\\$3\\a\\a .as )joined \" \\\\$3\n\
.if !\\a\\\\$4\\a\\a .as )joined \" \\\\$4\n\
.if !\\a\\\\$5\\a\\a .as )joined \" \\\\$5\n\
.if !\\a\\\\$6\\a\\a .as )joined \" \\\\$6\n\
.if !\\a\\\\$7\\a\\a .as )joined \" \\\\$7\n\
.if !\\a\\\\$8\\a\\a .as )joined \" \\\\$8\n\
.if !\\a\\\\$9\\a\\a .as )joined \" \\\\$9\n\
.XS\n\
\\\\*[)joined]\n\
.XE\n\
..\n\
.\\\" of the Bell Laboratories\n\
.de SC\n\
.nr )bell 1\n\
.NH\n\
\\&\\\\$1 \\\\$2 \\\\$3 \\\\$4 \\\\$5 \\\\$6 \\\\$7 \\\\$8 \\\\$9\n\
..\n\
.de P2\n\
.if \\\\n[)bell] .DE\n\
..\n\
.de UC\n\
\\&\\\\$1 \\\\$2 \\\\$3 \\\\$4 \\\\$5 \\\\$6 \\\\$7 \\\\$8 \\\\$9\n\
..\n\
.\\\" what .SG names stands behind room to sign\n\
.de SG\n\
.)finish\n\
.sp 3\n\
.if \\\\n(.$ \\&\\\\$1 \\\\$2 \\\\$3 \\\\$4 \\\\$5 \\\\$6 \\\\$7 \\\\$8 \\\\$9\n\
..\n\
.\\\" addresses\n\
.de MH\n\
Bell Laboratories\n\
Murray Hill, New Jersey 07974\n\
..\n\
.de HO\n\
Bell Laboratories\n\
Holmdel, New Jersey 07733\n\
..\n\
.de WH\n\
Bell Laboratories\n\
Whippany, New Jersey 07981\n\
..\n\
.de IH\n\
Bell Laboratories\n\
Naperville, Illinois 60540\n\
..\n\
.de PY\n\
Bell Laboratories\n\
Piscataway, New Jersey 08854\n\
..\n\
.\\\" of Berkeley: the title of a chapter\n\
.de CT\n\
.)finish\n\
.sp\n\
.)centre\n\
.)strong\n\
..\n\
.\\\" ---- fonts: a word, what stands behind it, before it; of more words all\n\
.de )set-font\n\
.nr )font \\\\$1\n\
.ft \\\\$1\n\
..\n\
.de B\n\
.if \\\\n(.$>3 \\{\\\n\
\\*[)join].\\}\n\
.ie \\\\n(.$>3 \\&\\fB\\\\*[)joined]\\fP\n\
.el .ie \\\\n(.$ \\&\\\\$3\\fB\\\\$1\\fP\\\\$2\n\
.el .)set-font 3\n\
..\n\
.de I\n\
.if \\\\n(.$>3 \\{\\\n\
\\*[)join].\\}\n\
.ie \\\\n(.$>3 \\&\\fI\\\\*[)joined]\\fP\n\
.el .ie \\\\n(.$ \\&\\\\$3\\fI\\\\$1\\fP\\\\$2\n\
.el .)set-font 2\n\
..\n\
.de R\n\
.if \\\\n(.$>3 \\{\\\n\
\\*[)join].\\}\n\
.ie \\\\n(.$>3 \\&\\fR\\\\*[)joined]\\fP\n\
.el .ie \\\\n(.$ \\&\\\\$3\\fR\\\\$1\\fP\\\\$2\n\
.el .)set-font 1\n\
..\n\
.de CW\n\
.if \\\\n(.$>3 \\{\\\n\
\\*[)join].\\}\n\
.ie \\\\n(.$>3 \\&\\fR\\\\*[)joined]\\fP\n\
.el .ie \\\\n(.$ \\&\\\\$3\\fR\\\\$1\\fP\\\\$2\n\
.el .R\n\
..\n\
.de BI\n\
.if \\\\n(.$>3 \\{\\\n\
\\*[)join].\\}\n\
.ie \\\\n(.$>3 \\&\\fI\\\\*[)joined]\\fP\n\
.el .ie \\\\n(.$ \\&\\\\$3\\fI\\\\$1\\fP\\\\$2\n\
.el .I\n\
..\n\
.de UL\n\
.if \\\\n(.$>2 \\{\\\n\
\\*[)join].\\}\n\
.ie \\\\n(.$>2 \\&\\fI\\\\*[)joined]\\fP\n\
.el .if \\\\n(.$ \\&\\fI\\\\$1\\fP\\\\$2\n\
..\n\
.de BX\n\
\\*[)join]\\&[\\\\*[)joined]]\n\
..\n\
.de UX\n\
\\&UNIX\\\\$1\\\\*[)unix]\n\
.ds )unix\n\
..\n\
.de LG\n\
.if \\\\n(.$ \\&\\\\$1 \\\\$2 \\\\$3 \\\\$4 \\\\$5 \\\\$6 \\\\$7 \\\\$8 \\\\$9\n\
..\n\
.de SM\n\
.if \\\\n(.$ \\&\\\\$1 \\\\$2 \\\\$3 \\\\$4 \\\\$5 \\\\$6 \\\\$7 \\\\$8 \\\\$9\n\
..\n\
.de NL\n\
.if \\\\n(.$ \\&\\\\$1 \\\\$2 \\\\$3 \\\\$4 \\\\$5 \\\\$6 \\\\$7 \\\\$8 \\\\$9\n\
..\n\
.\\\" ---- displays: )kind 1 as they come, 2 a block in the middle, 3 at the right\n\
.de LD\n\
.if \\\\n[)kind] .DE\n\
.)reset\n\
.sp \\\\n(DDu\n\
.)display \\\\$0\n\
..\n\
.de )display\n\
.nr )kind 1\n\
.nf\n\
..\n\
.de ID\n\
.LD\n\
.)indent-display \"\\\\$1\"\n\
..\n\
.de )indent-display\n\
.nr )w \\\\n(DI\n\
.nr )w \\\\$1n\n\
.in +\\\\n()wu\n\
..\n\
.de CD\n\
.LD\n\
.)centre\n\
..\n\
.de BD\n\
.LD\n\
.nr )kind 2\n\
.di )block\n\
..\n\
.de RD\n\
.LD\n\
.nr )kind 3\n\
.)right-line\n\
..\n\
.\\\" lines at the right: each is measured by itself\n\
.de )right-line\n\
.di )block\n\
.it 1 )right-put\n\
..\n\
.de )right-put\n\
.it 1 )right-put\n\
.if '\\\\n(.z')block' \\{\\\n\
.)right-end\n\
.)right-line\n\
.\\}\n\
..\n\
.de )right-end\n\
.br\n\
.it\n\
.di\n\
.nr )right-in \\\\n(.i\n\
.nr )o \\\\n(.l-\\\\n(dl\n\
.if \\\\n()o<0 .nr )o 0\n\
.in \\\\n()ou\n\
.)block\n\
.in \\\\n[)right-in]u\n\
..\n\
.de DS\n\
.if \\\\n[)kind] .DE\n\
.)reset\n\
.sp \\\\n(DDu\n\
.KS\n\
.nr )kept-display 1\n\
.)display\n\
.ie '\\\\$1'L' \\{\\\n\
.\\}\n\
.el .ie '\\\\$1'C' .)centre\n\
.el .ie '\\\\$1'B' \\{\\\n\
.nr )kind 2\n\
.di )block\n\
.\\}\n\
.el .ie '\\\\$1'R' \\{\\\n\
.nr )kind 3\n\
.)right-line\n\
.\\}\n\
.el .ie '\\\\$1'I' .)indent-display \"\\\\$2\"\n\
.el .)indent-display \"\\\\$1\"\n\
..\n\
.de DE\n\
.if \\\\n[)kind]>1 .)close-to )block\n\
.if '\\\\n(.z')block' .)end-block\n\
.if \\\\n[)kind] .)end-display\n\
..\n\
.de )end-display\n\
.br\n\
.nr )kind 0\n\
.)plain\n\
.if \\\\n[)kept-display] \\{\\\n\
.nr )kept-display 0\n\
.KE\n\
.\\}\n\
.)reset\n\
.if \\\\n(.d .sp \\\\n(DDu\n\
.ns\n\
.nr )behind \\\\n(.d\n\
..\n\
.de )plain\n\
.ce 0\n\
.nr )centred 0\n\
.in \\\\n[)left]u+\\\\n[)pleft]u\n\
.fi\n\
..\n\
.de )end-block\n\
.ie \\\\n[)kind]=3 .)right-end\n\
.el \\{\\\n\
.br\n\
.di\n\
.nr )o \\\\n(.l-\\\\n(dl/2\n\
.if \\\\n()o<0 .nr )o 0\n\
.in \\\\n()ou\n\
.)block\n\
.\\}\n\
.nr )kind 1\n\
..\n\
.\\\" ---- keeps: set apart, then placed where they fit, with their notes; the register *+\n\
.\\\" tells how much less room the tables in it take than their parts together\n\
.de KS\n\
.br\n\
.if \\\\n[)cover]<2 .)reset\n\
.if \\\\n[)raw] .if !\\\\n[)keep] .)set-now\n\
.nr )keep +1\n\
.if '\\\\n(.z'' \\{\\\n\
.nr )keeping \\\\n[)keep]\n\
.nr *+ 0\n\
.di )kept-text\n\
.\\}\n\
..\n\
.de KF\n\
.ie '\\\\n(.z'' .)begin-float\n\
.el .KS\n\
..\n\
.\\\" a floating one: the line under way waits meanwhile\n\
.de )begin-float\n\
.if \\\\n[)cover]<2 .)reset\n\
.)aside\n\
.nr )float 1\n\
.nr )f-fill \\\\n(.u\n\
.nr )f-in \\\\n(.i\n\
.nr )f-ll \\\\n(.l\n\
.nr )f-font \\\\n[)font]\n\
.)keep-margins\n\
.nr )left 0\n\
.nr )right 0\n\
.nr )pleft 0\n\
.nr )pright 0\n\
.nr )width \\\\n(PI\n\
.nr )keep 1\n\
.nr )keeping 1\n\
.nr *+ 0\n\
.di )kept-text\n\
.)reset\n\
..\n\
.de KE\n\
.br\n\
.if \\\\n[)kind] .if !\\\\n[)kept-display] .DE\n\
.nr )o \\\\n[)box-keep]+1\n\
.ie \\\\n[)boxed]=0:(\\\\n[)keep]>\\\\n()o) .)pop-keep\n\
.el .if \\\\n[)box-keep] \\{\\\n\
.nr )boxed 1\n\
.B2\n\
.)pop-keep\n\
.\\}\n\
..\n\
.\\\" ends a keep: a box that was begun in it has ended, and one around it stays\n\
.de )pop-keep\n\
.if \\\\n[)keep] .ie \\\\n[)keep]=\\\\n[)keeping] \\{\\\n\
.)close-to )kept-text\n\
.if '\\\\n(.z')kept-text' .)end-keep\n\
.\\}\n\
.el .nr )keep -1\n\
..\n\
.de )end-keep\n\
.br\n\
.di\n\
.nr )keep \\\\n[)keeping]\n\
.nr )keeping 0\n\
.nr )kept-space \\\\n(dn=\\\\n[)behind]\n\
.nr )height \\\\n(dn-\\\\n(*+\n\
.if \\\\n(*+ .nr )height +1v\n\
.ie \\\\n[)float] .)end-float\n\
.el .)put-keep\n\
.if \\\\n[)keep] .nr )keep -1\n\
..\n\
.de )put-keep\n\
.nr )note-height 0\n\
.if \\\\n[)raw] .)set\n\
.)need \\\\n[)height]+\\\\n[)note-height]\n\
.nr )keep-in \\\\n(.i\n\
.in 0\n\
.)kept-text\n\
.in \\\\n[)keep-in]u\n\
.rm )kept-text\n\
.if \\\\n[)note-height] .)allot\n\
.if \\\\n[)kept-space] .ns\n\
..\n\
.de )end-float\n\
.nr )float 0\n\
.)margins-before\n\
.ie \\\\n[)f-fill] .fi\n\
.el .nf\n\
.in \\\\n[)f-in]u\n\
.ll \\\\n[)f-ll]u\n\
.)set-font \\\\n[)f-font]\n\
.nr )w \\\\n(.t-\\\\n[)rows]\n\
.if !\\\\n(nl .nr )w -\\\\n(HM\n\
.nr )here \\\\n()w-\\\\n[)height]+1\n\
.if \\\\n[)kept]>\\\\n[)shown] .nr )here 0\n\
.if \\\\n[)here]<1 \\{\\\n\
.nr )kept +1\n\
.nr )wait\\\\n[)kept] \\\\n[)height]\n\
.rn )kept-text )keep\\\\n[)kept]\n\
.\\}\n\
.)back\n\
.if \\\\n[)here]>0 \\{\\\n\
.br\n\
.)put-keep\n\
.\\}\n\
..\n\
.\\\" those that waited, at the page's top: the first in any case\n\
.de )floats\n\
.nr )floating 1\n\
.nr )force 1\n\
.)next-float\n\
.nr )floating 0\n\
..\n\
.de )next-float\n\
.nr )i \\\\n[)shown]+1\n\
.nr )o \\\\n(.t\n\
.if !\\\\n(nl .nr )o -\\\\n(HM\n\
.if \\\\n[)force] .nr )o \\\\n[)wait\\\\n()i]\n\
.nr )force 0\n\
.if \\\\n()o>=\\\\n[)wait\\\\n()i] \\{\\\n\
.nr )shown \\\\n()i\n\
.nr )float-in \\\\n(.i\n\
'in 0\n\
.)keep\\\\n[)shown]\n\
.rm )keep\\\\n[)shown]\n\
'in \\\\n[)float-in]u\n\
.if \\\\n[)kept]>\\\\n[)shown] .)next-float\n\
.\\}\n\
..\n\
.\\\" ---- notes: the text is set at the next break, or at the page's bottom if that\n\
.\\\" comes first; three lines are kept for it till then\n\
.de FS\n\
.ds )m \"\\\\$1\n\
.nr )own \\\\n(.$\n\
.if !\\\\n(.$ .if \\\\n[)marks]>\\\\n[)mark] .ds )m \\\\n+[)mark]\n\
.nr )raw +1\n\
.am )raw-notes FE\n\
.ds )note-mark \"\\\\*()m\n\
.)note \\\\n[)own] \\\\n(FF\n\
..\n\
.de FE\n\
.if \\\\n(.t>160u .if !\\\\n[)keep] .if '\\\\n(.z'' \\{\\\n\
.nr )room +120u\n\
.)place\n\
.\\}\n\
.)look\n\
..\n\
.\\\" fifteen lines above the bottom the notes are set while a line is under way, so that they\n\
.\\\" stand on the page of their mark; that is looked at after each line of the text\n\
.de )look\n\
.if \\\\n[)raw] .if '\\\\n(.z'' .if !\\\\n[)keep] \\{\\\n\
.nr )w \\\\n(.p-\\\\n(FM-\\\\n[)noted]-\\\\n(nl-(400u*\\\\n[)raw])\n\
.ie \\\\n()w<200 .if \\\\n(nl .)set-aside\n\
.el .it 1 )look\n\
.\\}\n\
..\n\
.de )set-aside\n\
.)aside\n\
.)set\n\
.nr )room 0\n\
.)place\n\
.nr )w \\\\n[)noted]=0*40u+\\\\n[)rows]+80u\n\
.if \\\\n(.t<\\\\n()w .if \\\\n(nl>\\\\n[)top] \\{\\\n\
.rs\n\
'sp \\\\n(.tu\n\
.\\}\n\
.)allot\n\
.)back\n\
..\n\
.\\\" begins a note, of the mark )note-mark: 1 if it is the writer's own, the form that it has\n\
.de )note\n\
.)finish\n\
.if \\\\n[)second-note] .sp \\\\n[FPD]u\n\
.nr )second-note 1\n\
.nr )form \\\\n(FF\n\
.nr FF \\\\$2\n\
.if !\\a\\\\*[)note-mark]\\a\\a .FP \"\\\\\\\\*[)note-mark]\" \\\\$1\n\
.nr FF \\\\n[)form]\n\
..\n\
.\\\" how notes begin, by FF\n\
.de FP\n\
.ds )m \"\\\\$1\n\
.if \\w\\a\\\\$1\\a .if !'\\\\$2'1' .ds )m \"\\\\$1.\n\
.if \\w\\a\\\\$1\\a .if !'\\\\$2'1' .if !\\\\n(FF .ds )m \"[\\\\$1]\n\
.if \\\\n(FF<2 .ti \\\\n(FIu\n\
.ie \\\\n(FF=3 \\{\\\n\
.in (\\\\n(FIu*2u)\n\
.nr )w \\w\\a\\\\*()m\\a\n\
.ti -(\\\\n(FIu*2u)\n\
.ie \\\\n()w<(\\\\n(FI*2) \\{\\\n\
'nf\n\
\\&\\\\*()m\\h\\a|(\\\\n(FIu*2u)\\a\\c\n\
'fi\n\
.\\}\n\
.el \\&\\\\*()m\\ \\c\n\
.\\}\n\
.el .if \\w\\a\\\\$1\\a \\&\\\\*()m\\ \\c\n\
..\n\
.\\\" sets the notes that wait to be set; no line is under way. Paragraphs in them have\n\
.\\\" the settings of notes\n\
.de )set\n\
.)keep-margins\n\
.nr )n-fill \\\\n(.u\n\
.nr )n-in \\\\n(.i\n\
.nr )n-ll \\\\n(.l\n\
.nr )n-vs \\\\n(.v\n\
.nr )n-centred \\\\n[)centred]\n\
.nr )n-font \\\\n[)font]\n\
.nr )n-kind \\\\n[)kind]\n\
.nr )n-keep-in \\\\n[)keep-in]\n\
.nr )n-keep \\\\n[)keep]\n\
.nr )n-keeping \\\\n[)keeping]\n\
.nr )n-boxed \\\\n[)boxed]\n\
.nr )n-LL \\\\n(LL\n\
.nr )n-PI \\\\n(PI\n\
.nr )n-PD \\\\n(PD\n\
.nr )n-VS \\\\n(VS\n\
.nr LL \\\\n(FL\n\
.nr PI \\\\n(FI\n\
.nr PD \\\\n[FPD]\n\
.nr VS 12\n\
.nr )left 0\n\
.nr )right 0\n\
.nr )kind 0\n\
.nr )keep 0\n\
.nr )boxed 0\n\
.nr )raw 0\n\
.nr )second-note 0\n\
.if \\\\n[)noted] .nr )second-note 1\n\
.rn )raw-notes )set-notes\n\
.di )new-notes\n\
.)set-notes\n\
.)close\n\
.br\n\
.di\n\
.rm )set-notes\n\
.nr )note-height \\\\n(dn\n\
.nr LL \\\\n[)n-LL]\n\
.nr PI \\\\n[)n-PI]\n\
.nr PD \\\\n[)n-PD]\n\
.nr VS \\\\n[)n-VS]\n\
.nr )kind \\\\n[)n-kind]\n\
.nr )keep-in \\\\n[)n-keep-in]\n\
.nr )keep \\\\n[)n-keep]\n\
.nr )keeping \\\\n[)n-keeping]\n\
.nr )boxed \\\\n[)n-boxed]\n\
.vs \\\\n[)n-vs]u\n\
.)margins-before\n\
.ll \\\\n[)n-ll]u\n\
'in \\\\n[)n-in]u\n\
.)set-font \\\\n[)n-font]\n\
.if !\\\\n[)n-fill] 'nf\n\
.nr )centred \\\\n[)n-centred]\n\
.if \\\\n[)centred] 'ce 10000\n\
..\n\
.\\\" at a break\n\
.de )set-now\n\
.)set\n\
.nr )room 0\n\
.)place\n\
.)allot\n\
..\n\
.\\\" at the bottom, where there may be room for them\n\
.de )set-at-bottom\n\
.)set\n\
.nr )w \\\\n[)later]\n\
.if \\\\n(.p-\\\\n(nl-\\\\n(FM<(\\\\n[)noted]+\\\\n[)note-height]+40u) .nr )w 1\n\
.)store\n\
..\n\
.\\\" for this page, if two lines have room and none waits, else for the next\n\
.de )allot\n\
.nr )w \\\\n[)later]\n\
.nr )o \\\\n(.t\n\
.if !\\\\n(nl .nr )o -\\\\n(HM\n\
.nr )rest \\\\n[)note-height]\n\
.if \\\\n[)rest]>80 .nr )rest 80\n\
.if \\\\n()o<(\\\\n[)noted]=0*40u+\\\\n[)rest]+40u) .nr )w 1\n\
.ie \\\\n()w .)store\n\
.el \\{\\\n\
.)store\n\
.)place\n\
.\\}\n\
..\n\
.de )store\n\
.ie \\\\n()w \\{\\\n\
.da )notes-later\n\
.nr )later +\\\\n[)note-height]\n\
.\\}\n\
.el \\{\\\n\
.da )notes\n\
.nr )noted +\\\\n[)note-height]\n\
.\\}\n\
.nr )n-in \\\\n(.i\n\
'in 0\n\
.)new-notes\n\
.di\n\
'in \\\\n[)n-in]u\n\
.rm )new-notes\n\
..\n\
.\\\" notes below a rule; what has no room is for the next page, before the notes that wait\n\
.de )print-notes\n\
.nr )n-in \\\\n(.i\n\
'in 0\n\
.nr )noted 0\n\
.nr )n-vs \\\\n(.v\n\
.vs 40u\n\
.lt \\\\n(LTu\n\
.tl \\a\\l'11n'\\a\\a\\a\n\
.wh -\\\\n(FMu )catch\n\
.)notes\n\
.if '\\\\n(.z')notes-over' .)end-catch\n\
.ch )catch\n\
.rm )notes\n\
.vs \\\\n[)n-vs]u\n\
'in \\\\n[)n-in]u\n\
..\n\
.de )catch\n\
.di )notes-over\n\
..\n\
.de )end-catch\n\
.nr )over \\\\n(.d\n\
.if \\\\n[)later] .)notes-later\n\
.di\n\
.rm )notes-later\n\
.rn )notes-over )notes-later\n\
.nr )later +\\\\n[)over]\n\
..\n\
.\\\" ---- boxes\n\
.de B1\n\
.br\n\
.if \\\\n[)cover]<2 .)reset\n\
.if \\\\n[)raw] .if !\\\\n[)keep] .)set-now\n\
.nr )boxed +1\n\
.if \\\\n[)boxed]=1 .)begin-box\n\
..\n\
.de )begin-box\n\
.nr )box-keep \\\\n[)keep]\n\
.nr )keep +1\n\
.nr )box-in \\\\n(.i\n\
.nr )box-ll \\\\n(.l\n\
.nr )left +1n\n\
.nr )right +1n\n\
.in +1n\n\
.ll -1n\n\
.di )box\n\
..\n\
.de B2\n\
.if \\\\n[)kind] .DE\n\
.br\n\
.if \\\\n[)boxed]=1 .)close-to )box\n\
.ie \\\\n[)boxed]>1 .nr )boxed -1\n\
.el .if '\\\\n(.z')box' .)end-box\n\
..\n\
.de )end-box\n\
.br\n\
.di\n\
.nr )boxed 0\n\
.nr )keep \\\\n[)box-keep]\n\
.nr )left -1n\n\
.nr )right -1n\n\
.nr )height \\\\n(dn\n\
.nr )box-fill \\\\n(.u\n\
.nf\n\
.nr )note-height 0\n\
.if !\\\\n[)keep] .if \\\\n[)raw] .)set\n\
.)need \\\\n[)height]+\\\\n[)note-height]+120u\n\
.in \\\\n[)box-in]u\n\
.ll \\\\n[)box-ll]u\n\
.nr )box-w \\\\n(.l-\\\\n(.i-2n\n\
.nr )box-v \\\\n(.v\n\
.vs 40u\n\
.)box-rule\n\
.)box-bars \\\\n[)box-in] \\\\n[)box-w] \\\\n[)height]\n\
.in 0\n\
.)box\n\
.in \\\\n[)box-in]u\n\
.)box-rule\n\
.vs \\\\n[)box-v]u\n\
.in \\\\n[)left]u+\\\\n[)pleft]u\n\
.ll \\\\n(LLu-\\\\n[)right]u-\\\\n[)pright]u\n\
.rm )box\n\
.if \\\\n[)box-fill] .fi\n\
.if \\\\n[)note-height] .)allot\n\
..\n\
.de )box-rule\n\
\\&+\\l'\\\\n[)box-w]u-'+\n\
..\n\
.\\\" the bars, at an indent, so far apart, so high; the text is put over them. In a\n\
.\\\" diversion they wait till that is printed, and they stand on one page only\n\
.de )box-bars\n\
.ie '\\\\n(.z'' .)draw-bars \\\\$1 \\\\$2 \\\\$3\n\
.el \\!.)box-bars \\\\$1 \\\\$2 \\\\$3\n\
..\n\
.de )draw-bars\n\
.if !\\\\n(nl 'sp\n\
.if \\\\$3 .if \\\\n(.t>(\\\\$3+40) \\{\\\n\
.nr )i \\\\n(.i\n\
.nr )o \\\\n(.u\n\
'nf\n\
'in \\\\$1u\n\
.nr )v \\\\n(.v\n\
.vs 40u\n\
.rs\n\
.nr )box-top \\\\n(nl\n\
.nr )box-end \\\\n(nl+\\\\$3\n\
.)bar \\\\$2\n\
'sp |\\\\n[)box-top]u\n\
.vs \\\\n()vu\n\
'in \\\\n()iu\n\
.if \\\\n()o 'fi\n\
.\\}\n\
..\n\
.de )bar\n\
\\&|\\h'\\\\$1u'|\n\
.if \\\\n(nl<\\\\n[)box-end] .)bar \\\\$1\n\
..\n\
.\\\" ---- tables; the head of one with a head stands again on each page. In the head tbl asks\n\
.\\\" for room for the whole table, which may go on over pages: nothing is asked there\n\
.de TS\n\
.br\n\
.if \\\\n[)cover]<2 .)reset\n\
.if \\\\n[)raw] .if !\\\\n[)keep] .)set-now\n\
.nr )t-fill \\\\n(.u\n\
.sp \\\\n(DDu\n\
.nr )in-table 1\n\
.ds )table-in \\\\n(.z\n\
.nf\n\
.if '\\\\$1'H' .)begin-head\n\
..\n\
.de )begin-head\n\
.nr )in-head 1\n\
.di )head-text\n\
..\n\
.de TH\n\
.if \\\\n[)in-head] .)close-to )head-text\n\
.if '\\\\n(.z')head-text' .)end-head\n\
..\n\
.de )end-head\n\
.br\n\
.di\n\
.nr )in-head 0\n\
.nr )head-height \\\\n(dn\n\
.if \\\\n(dn .)put-head\n\
..\n\
.de )put-head\n\
.)need \\\\n[)head-height]+40u\n\
.nr )head-in \\\\n(.i\n\
.in 0\n\
.rn ne )ne\n\
.)head-text\n\
.rn )ne ne\n\
.in \\\\n[)head-in]u\n\
.if '\\\\n(.z'' .if \\\\n[)head-height]<(\\\\n(.p-\\\\n(HM-\\\\n(FM-80u) .nr )head \\\\n[)head-height]\n\
..\n\
.de )print-head\n\
.nr )head-in \\\\n(.i\n\
'in 0\n\
.rn ne )ne\n\
.)head-text\n\
.rn )ne ne\n\
'in \\\\n[)head-in]u\n\
..\n\
.de TE\n\
.TH\n\
.br\n\
.nr )in-table 0\n\
.nr )flat 0\n\
.nr )head 0\n\
.if \\\\n[)t-fill] .fi\n\
.if \\\\n(.d .sp \\\\n(DDu\n\
.ns\n\
.nr )behind \\\\n(.d\n\
..\n\
.de T&\n\
..\n\
.\\\" ---- equations and pictures: what stands between, set apart\n\
.de EQ\n\
.if \\\\n[)in-equation] .EN\n\
.br\n\
.if \\\\n[)cover]<2 .)reset\n\
.if \\\\n[)raw] .if !\\\\n[)keep] .if '\\\\n(.z'' .)set-now\n\
.nr )e-kind 2\n\
.ds )e-number \"\\\\$2\n\
.ie '\\\\$1'L' .nr )e-kind 0\n\
.el .ie '\\\\$1'I' .nr )e-kind 1\n\
.el .if !'\\\\$1'C' .ds )e-number \"\\\\$1\n\
.nr )e-fill \\\\n(.u\n\
.nr )e-in \\\\n(.i\n\
.in 0\n\
.nf\n\
.nr )in-equation 1\n\
.di )equation\n\
..\n\
.de EN\n\
.if \\\\n[)in-equation] .)close-to )equation\n\
.if '\\\\n(.z')equation' .)end-equation\n\
..\n\
.de )end-equation\n\
.br\n\
.di\n\
.nr )in-equation 0\n\
.nr )e-number-width \\w\\a\\\\*[)e-number]\\a\n\
.nr )e-width \\\\n(dl\n\
.nr )height \\\\n(dn\n\
.if \\\\n(dl:\\\\n[)e-number-width] .)put-equation\n\
.in \\\\n[)e-in]u\n\
.if \\\\n[)e-fill] .fi\n\
..\n\
.de )put-equation\n\
.sp \\\\n(DDu\n\
.)need \\\\n[)height]+80u\n\
.nr )e-at \\\\n[)e-in]\n\
.if \\\\n[)e-kind]=1 .nr )e-at +\\\\n(DI\n\
.if \\\\n[)e-kind]=2 .nr )e-at +(\\\\n(.l-\\\\n[)e-in]-\\\\n[)e-width]/2)\n\
.if \\\\n[)e-at]<0 .nr )e-at 0\n\
.in \\\\n[)e-at]u\n\
.)equation\n\
.in 0\n\
.if \\\\n[)e-number-width] .)put-number\n\
.if \\\\n(.d .sp \\\\n(DDu\n\
.ns\n\
..\n\
.de )put-number\n\
.nr )i \\\\n(.l-\\\\n[)e-number-width]\n\
.if \\\\n()i<0 .nr )i 0\n\
.if '\\\\n(.z'' .if \\\\n[)height] .if \\\\n[)e-at]+\\\\n[)e-width]+1n<=\\\\n()i 'sp -1\n\
.rs\n\
\\&\\h'\\\\n()iu'\\\\*[)e-number]\n\
..\n\
.de PS\n\
.br\n\
.if \\\\n[)cover]<2 .)reset\n\
.nr )p-fill \\\\n(.u\n\
.sp \\\\n(DDu\n\
.nf\n\
..\n\
.de PE\n\
.br\n\
.if \\\\n[)p-fill] .fi\n\
.if \\\\n(.d .sp \\\\n(DDu\n\
.ns\n\
..\n\
.de PF\n\
.PE\n\
..\n\
.\\\" ---- contents: entries are kept as they are read, with their page\n\
.de XS\n\
.if !\\\\n(nl .if '\\\\n(.z'' .nr PN \\\\n%\n\
.am )contents XE\n\
.XA \"\\\\$1\" \"\\\\$2\" \\\\n(PN\n\
..\n\
.de XE\n\
..\n\
.\\\" an entry: page (\"no\" for none), indent; the page where it stood\n\
.de XA\n\
.)end-entry\n\
.nr )entry 1\n\
.if \\\\n(.$>2 .ds )page \\\\$3\n\
.ds )number \\\\$1\n\
.if '\\\\$1'' .ds )number \\\\*[)page]\n\
.if '\\\\$1'no' .ds )number\n\
.in 0\n\
.nr )w 0\n\
.nr )w \\\\$2n\n\
.in \\\\n()wu\n\
.ll \\\\n(LLu-8n\n\
.fi\n\
.di )entry-text\n\
..\n\
.de )end-entry\n\
.if \\\\n[)entry] \\{\\\n\
.nr )entry 0\n\
.br\n\
.nr )entry-end \\\\n(.i+\\\\n(.n\n\
.di\n\
.nf\n\
.in 0\n\
.ll \\\\n(LLu\n\
.nr )number-width \\w\\a\\\\*[)number]\\a\n\
.nr )entry-height \\\\n(dn\n\
.ne \\\\n(dnu+1v\n\
.)entry-text\n\
.if \\\\n[)entry-height] .if \\\\n[)number-width] 'sp -1\n\
.rs\n\
.nr )o \\\\n(LL-\\\\n[)entry-end]-\\\\n[)number-width]-2n\n\
.if \\\\n()o<0 .nr )o 0\n\
.if \\\\n[)number-width] \\h'\\\\n[)entry-end]u'\\ \\l'\\\\n()ou.'\\ \\\\*[)number]\n\
.\\}\n\
..\n\
.de PX\n\
.)finish\n\
.ne 5v\n\
.if !'\\\\$1'no' \\{\\\n\
.ce\n\
.)strong\n\
\\&\\\\*[TOC]\n\
.)set-font 1\n\
.\\}\n\
.sp 2\n\
.)contents\n\
.)end-entry\n\
.)finish\n\
..\n\
.de TC\n\
.)close\n\
.)finish\n\
.)last\n\
.nr )first 1\n\
.pn 1\n\
.af PN i\n\
.nr PN 1\n\
.PX \\\\$1\n\
..\n\
.\\\" ---- columns, from here to the end of the page and on; LL is the width of one meanwhile\n\
.de 2C\n\
.MC\n\
..\n\
.de 1C\n\
.)close\n\
.)finish\n\
.if \\\\n[)columns]>1 .)end-columns\n\
..\n\
.de MC\n\
.1C\n\
.if \\\\n[)raw] .)set-now\n\
.nr )w \\\\n[)noted]+120-\\\\n(.p+\\\\n(FM+\\\\n(nl\n\
.if !\\\\n[)noted] .nr )w 0\n\
.if \\\\n()w>0:(\\\\n[)later]+\\\\n[)kept]-\\\\n[)shown]>0) .)last\n\
.if !\\\\n[)begun] .)begin\n\
.nr )all-LL \\\\n(LL\n\
.nr )all-FL \\\\n(FL\n\
.nr )w \\\\n(LL*7/15\n\
.nr )gap \\\\n(LL-(2*\\\\n()w)\n\
.if \\\\n(.$ .)column-width \\\\$1n \\\\$2\n\
.if \\\\n()w<24 .nr )w 24\n\
.nr )columns \\\\n(LL-\\\\n()w/(\\\\n()w+\\\\n[)gap])+1\n\
.if \\\\n[)columns]>1 .)begin-columns\n\
..\n\
.de )column-width\n\
.if 0<\\\\$1 .nr )w \\\\$1\n\
.if \\\\n()w>\\\\n(LL .nr )w \\\\n(LL\n\
.nr )gap \\\\n[MINGW]\n\
.if \\\\n(.$>1 .nr )gap \\\\$2n\n\
.if \\\\n[)gap]<0 .nr )gap 0\n\
..\n\
.de )begin-columns\n\
.nr )w \\\\n()w/24*24\n\
.nr )gap \\\\n(LL-(\\\\n()w*\\\\n[)columns])/(\\\\n[)columns]-1)\n\
.nr LL \\\\n()w\n\
.nr FL \\\\n()w*5/6\n\
.nr )column 1\n\
.sp\n\
.nr )top \\\\n(nl\n\
.nr )low 0\n\
.if \\\\n[)noted] .)widen-notes\n\
.)finish\n\
..\n\
.\\\" notes from above the columns stand below all of them\n\
.de )widen-notes\n\
.nr )wide \\\\n[)noted]\n\
.nr )noted 0\n\
.rn )notes )wide-notes\n\
.)place\n\
..\n\
.de )print-wide-notes\n\
.rs\n\
.if \\\\n(nl<\\\\n[)low] 'sp |\\\\n[)low]u\n\
.rn )wide-notes )notes\n\
.nr )wide 0\n\
.)print-notes\n\
.if \\\\n[)later] \\{\\\n\
.rn )notes-later )wide-notes\n\
.nr )wide \\\\n[)later]\n\
.nr )later 0\n\
.\\}\n\
..\n\
.\\\" the end of the columns, and of the page\n\
.de )end-columns\n\
.if \\\\n[)raw] .)set-now\n\
.nr )column \\\\n[)columns]\n\
.if \\\\n(nl \\{\\\n\
.rs\n\
.bp\n\
.\\}\n\
.if \\\\n[)later]+\\\\n[)kept]-\\\\n[)shown] .)last\n\
.nr )columns 1\n\
.nr LL \\\\n[)all-LL]\n\
.nr FL \\\\n[)all-FL]\n\
.)finish\n\
..\n\
.\\\" ---- references, as refer hands them on: fields [A, [T .. , of which )field adds each that is\n\
.\\\" there, a comma or a stop before it, and what closes it after the next one\n\
.ds [. [\n\
.ds .] ]\n\
.ds <. .\n\
.ds <, ,\n\
.ds >.\n\
.ds >,\n\
.de ]-\n\
.nr [A 0\n\
.nr [O 0\n\
.nr [P 0\n\
.nr [T 0\n\
..\n\
.de )field\n\
.ds )text \"\\\\*([\\\\$1\n\
.if !\\a\\\\*[)text]\\a\\a \\{\\\n\
.if !\\a\\\\*[)reference]\\a\\a \\{\\\n\
.if !\\\\n[)stopped] .as )reference \"\\\\$2\n\
.as )reference \"\\\\*[)closing]\n\
.if !'\\\\$1'N' .as )reference \" \\&\n\
.\\}\n\
.as )reference \"\\\\$3\\\\*[)text]\\\\$4\n\
.ds )closing \"\\\\$5\n\
.nr )stopped 0\n\
.if \\\\n(.$>5 .nr )stopped \\\\$6\n\
.rm [\\\\$1\n\
.\\}\n\
..\n\
.\\\" the end of one, and its kind: 0 and 2 have the title in italics\n\
.de ][\n\
.ds )reference\n\
.ds )closing\n\
.nr )stopped 0\n\
.)field Q ,\n\
.)field A , \"\" \"\" \"\" \\\\n([A\n\
.ie (0\\\\$1=0):(0\\\\$1=2) .)field T , \"\\fI\" \"\" \"\\fR\" \\\\n([T\n\
.el .)field T , \"\\\\*Q\" \"\" \"\\\\*U\" \\\\n([T\n\
.)field J , \"\\fI\" \"\" \"\\fR\"\n\
.)field B \"\" \"in \\fI\" \"\" \"\\fR\"\n\
.)field E , \"ed. \"\n\
.)field R ,\n\
.)field G \"\" \"(\" \")\"\n\
.)field S ,\n\
.)field V \"\" \"\\fB\" \"\\fR\"\n\
.ie 0\\\\$1=4 .)field N \"\" \"\\ \"\n\
.el .)field N \"\" \"(\" \")\"\n\
.ie \\\\n([P .)field P , \"pp.\\ \"\n\
.el .)field P , \"p.\\ \"\n\
.)field I ,\n\
.)field C ,\n\
.)field D \"\" \"(\" \")\"\n\
.)field O . \"\" \"\" \"\" \\\\n([O\n\
.if !\\\\n[)stopped] .as )reference .\n\
.as )reference \"\\\\*[)closing]\n\
.ie \\\\n[)listing] .)list-reference\n\
.el .)note-reference\n\
.ds [F\n\
..\n\
.de []\n\
.][ \\\\$1\n\
..\n\
.de )list-reference\n\
.ie \\a\\\\*([F\\a\\a .XP\n\
.el .IP \"\\\\*([F.\"\n\
\\&\\\\*[)reference]\n\
..\n\
.de )note-reference\n\
.ds )text\n\
.if !\\a\\\\*([F\\a\\a .ds )text \"[\\\\*([F]\n\
.FS \"\\\\*[)text]\"\n\
\\&\\\\*[)reference]\n\
.FE\n\
..\n\
.\\\" around those that stand together\n\
.de ]<\n\
.nr )listing 1\n\
.SH\n\
\\&\\\\*[REFERENCES]\n\
.LP\n\
..\n\
.de ]>\n\
.nr )listing 0\n\
.)finish\n\
..\n\
.\\\" index words are not printed\n\
.de IX\n\
..\n\
.\\\" ---- links, as www.tmac of groff has them\n\
.de URL\n\
.ie \\a\\\\$2\\a\\a \\&<\\\\$1>\\\\$3\n\
.el \\&\\\\$2 <\\\\$1>\\\\$3\n\
..\n\
.de FTP\n\
.ie \\a\\\\$2\\a\\a \\&<\\\\$1>\\\\$3\n\
.el \\&\\\\$2 <\\\\$1>\\\\$3\n\
..\n\
.de MTO\n\
.ie \\a\\\\$2\\a\\a \\&\\\\$1\\\\$3\n\
.el \\&\\\\$2 <\\\\$1>\\\\$3\n\
..\n\
.de DC\n\
\\&\\\\$1\\\\$2\n\
..\n\
.de ULS\n\
.RS\n\
.nr )list\\\\n[)depth] 1\n\
.nr )bullets +1\n\
..\n\
.de ULE\n\
.nr )bullets -1\n\
.RE\n\
..\n\
.de OLS\n\
.RS\n\
.nr )list\\\\n[)depth] 2\n\
.nr )item\\\\n[)depth] 0\n\
..\n\
.de OLE\n\
.RE\n\
..\n\
.de DLS\n\
.RS\n\
.nr )list\\\\n[)depth] 3\n\
..\n\
.de DLE\n\
.RE\n\
..\n\
.de LI\n\
.nr )w \\\\n[)list\\\\n[)depth]]\n\
.ie \\\\n()w=1 .IP \\\\*[)bullet\\\\n[)bullets]] 3\n\
.el .ie \\\\n()w=3 \\{\\\n\
.ds )item \"\\\\$1\n\
.IP \"\\\\\\\\*[)item]\"\n\
.\\}\n\
.el \\{\\\n\
.nr )item\\\\n[)depth] +1\n\
.IP \\\\n[)item\\\\n[)depth]]. 4\n\
.\\}\n\
..\n\
.\\\" of groff: a line of text\n\
.de nop\n\
\\&\\\\$1 \\\\$2 \\\\$3 \\\\$4 \\\\$5 \\\\$6 \\\\$7 \\\\$8 \\\\$9\n\
..\n\
.\\\" ---- the beginning\n\
.if \\nL .nr LL \\nLn\n\
.if !\\n(LL .nr LL 6i\n\
.nr GS 1\n\
.nr PS 10\n\
.nr HM 1i\n\
.nr FM 1i\n\
.nr PI 5n\n\
.nr QI 5n\n\
.nr DI 5n\n\
.nr FI 2n\n\
.nr PD 1v\n\
.nr DD 1v\n\
.nr PSINCR 1p\n\
.nr PORPHANS 1\n\
.nr HORPHANS 1\n\
.nr MINGW 2n\n\
.nr )width 5n\n\
.ll \\n(LLu\n\
.TA\n\
.nr )columns 1\n\
.nr )column 1\n\
.wh 0 )header\n\
.em )end\n\
.\\\" end of tmac.s\n";
