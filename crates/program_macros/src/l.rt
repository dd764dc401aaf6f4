//! The file tmac.l.

/// Its text.
pub(crate) static TEXT: &[u8] = b"\
.\\\" tmac.l: letters (nroff -ml). nroff_ml(7) says what each name does.\n\
.\\\"\n\
.\\\" In this order, each as wanted, with lines below it as they are up to the next macro:\n\
.\\\"   .SE words      sender: name and address\n\
.\\\"   .DA words      date\n\
.\\\"   .TO words      name and address of who gets it\n\
.\\\"   .SU words      subject\n\
.\\\"   .GR words      salutation, then paragraphs:\n\
.\\\"   .PP .LP .IP tag width   .DS .DE lines as they are   .TS .TE tables   .B .I .R words\n\
.\\\"   .CL words      close\n\
.\\\"   .SG words      room to sign, and who signs\n\
.\\\"   .EN words      enclosures, a line for each\n\
.\\\"   .CC words      who gets copies, a line for each\n\
.\\\"   .PS words      postscript: paragraphs\n\
.\\\" Nine words are taken; preconv(1) makes one of the ninth and those behind it. More\n\
.\\\" words stand on the lines below.\n\
.\\\" A page behind the first has the words of .TO, those of .DA and its number on top.\n\
.\\\" Registers  LL line length in u      Options  -rLN lines of N cells (65)\n\
.\\\"\n\
.\\\" Long names are on (.cp 0).\n\
.\\\" Private strings   )name words of .TO   )date words of .DA   )joined words, joined\n\
.\\\" Private registers )width of tags   )tag width of a tag   )used room of a header's words\n\
.\\\" Private macros    )end-block what comes before a block   )left a block at the left\n\
.\\\"   )middle one at the middle   )words of a block, filled: )joined   )join joins words\n\
.cp 0\n\
.\\\" the words of a macro with a blank between two of them, as )joined; definitions take this in\n\
.de )join\n\
.ds )joined \"\\\\\\\\$1\n\
.if !\\a\\\\\\\\$2\\a\\a .as )joined \" \\\\\\\\$2\n\
.if !\\a\\\\\\\\$3\\a\\a .as )joined \" \\\\\\\\$3\n\
.if !\\a\\\\\\\\$4\\a\\a .as )joined \" \\\\\\\\$4\n\
.if !\\a\\\\\\\\$5\\a\\a .as )joined \" \\\\\\\\$5\n\
.if !\\a\\\\\\\\$6\\a\\a .as )joined \" \\\\\\\\$6\n\
.if !\\a\\\\\\\\$7\\a\\a .as )joined \" \\\\\\\\$7\n\
.if !\\a\\\\\\\\$8\\a\\a .as )joined \" \\\\\\\\$8\n\
.if !\\a\\\\\\\\$9\\a\\a .as )joined \" \\\\\\\\$9\n\
..\n\
.\\\" header; words that have no room side by side stand one above the other\n\
.de )header\n\
.rs\n\
'sp 2\n\
.if \\\\n%>1 \\{\\\n\
.ft R\n\
.nr )used \\w\\a\\\\*[)name]\\a*2+\\w\\a\\\\*[)date]\\a+4n\n\
.ie \\\\n[)used]<\\\\n(LL .tl \\a\\\\*[)name]\\a\\\\*[)date]\\a\\\\n%\\a\n\
.el \\{\\\n\
.tl \\a\\\\*[)name]\\a\\a\\a\n\
.tl \\a\\\\*[)date]\\a\\a\\\\n%\\a\n\
.\\}\n\
.ft P\n\
.\\}\n\
'sp |5v\n\
.ns\n\
..\n\
.de )footer\n\
'bp\n\
..\n\
.\\\" before a block\n\
.de )end-block\n\
.br\n\
.ft R\n\
.in 0\n\
.sp\n\
.nf\n\
..\n\
.de )left\n\
.)end-block\n\
.)words\n\
..\n\
.de )middle\n\
.)end-block\n\
.in \\\\n(LLu/2u\n\
.)words\n\
..\n\
.de )words\n\
.if \\w\\a\\\\*[)joined]\\a \\{\\\n\
.na\n\
.fi\n\
\\&\\\\*[)joined]\n\
.br\n\
.nf\n\
.ad\n\
.\\}\n\
..\n\
.de SE\n\
\\*[)join].)middle\n\
..\n\
.de DA\n\
\\*[)join].)middle\n\
.ds )date \"\\\\*[)joined]\n\
..\n\
.de TO\n\
\\*[)join].)left\n\
.ds )name \"\\\\*[)joined]\n\
..\n\
.de SU\n\
.)end-block\n\
.ft I\n\
\\*[)join].)words\n\
..\n\
.de GR\n\
\\*[)join].)left\n\
..\n\
.\\\" paragraphs\n\
.de PP\n\
.)end-block\n\
.fi\n\
.ne 2v\n\
.nr )width 5n\n\
..\n\
.de LP\n\
.PP\n\
..\n\
.de P\n\
.PP\n\
..\n\
.de IP\n\
.)end-block\n\
.fi\n\
.ne 2v\n\
.if \\\\n(.$>1 .nr )width 0\n\
.if \\\\n(.$>1 .nr )width \\\\$2n\n\
.in \\\\n[)width]u\n\
.nr )tag \\w\\a\\\\$1\\a\n\
.if \\\\n[)tag] \\{\\\n\
.ti 0\n\
.ie \\\\n[)tag]<\\\\n[)width] \\{\\\n\
'nf\n\
\\&\\\\$1\\h\\a|\\\\n[)width]u\\a\\c\n\
'fi\n\
.\\}\n\
.el \\{\\\n\
\\&\\\\$1\n\
.br\n\
.\\}\n\
.\\}\n\
..\n\
.de PS\n\
.PP\n\
PS:\n\
.if \\\\n(.$ \\&\\\\$1 \\\\$2 \\\\$3 \\\\$4 \\\\$5 \\\\$6 \\\\$7 \\\\$8 \\\\$9\n\
..\n\
.\\\" lines as they are\n\
.de DS\n\
.)end-block\n\
.in 5n\n\
..\n\
.de DE\n\
.br\n\
.fi\n\
.in 0\n\
..\n\
.\\\" around what tbl makes of a table\n\
.de TS\n\
.)end-block\n\
..\n\
.de TH\n\
..\n\
.de T&\n\
..\n\
.de TE\n\
.br\n\
.fi\n\
.in 0\n\
.sp\n\
.ns\n\
..\n\
.\\\" close, with what signs it on the same page\n\
.de CL\n\
.)end-block\n\
.ne 8v\n\
.in \\\\n(LLu/2u\n\
\\*[)join].)words\n\
..\n\
.de SG\n\
.br\n\
.sp 3\n\
.nf\n\
.in \\\\n(LLu/2u\n\
\\*[)join].)words\n\
..\n\
.\\\" lists below the letter\n\
.de EN\n\
.)end-block\n\
.ne 2v\n\
Enclosures:\n\
.in 4n\n\
\\*[)join].)words\n\
..\n\
.de CC\n\
.)end-block\n\
.ne 2v\n\
Copies:\n\
.in 4n\n\
\\*[)join].)words\n\
..\n\
.\\\" fonts; without words: from here on\n\
.de B\n\
.ie \\\\n(.$ \\&\\fB\\\\$1 \\\\$2 \\\\$3 \\\\$4 \\\\$5 \\\\$6 \\\\$7 \\\\$8 \\\\$9\\fP\n\
.el .ft B\n\
..\n\
.de I\n\
.ie \\\\n(.$ \\&\\fI\\\\$1 \\\\$2 \\\\$3 \\\\$4 \\\\$5 \\\\$6 \\\\$7 \\\\$8 \\\\$9\\fP\n\
.el .ft I\n\
..\n\
.de R\n\
.ie \\\\n(.$ \\&\\fR\\\\$1 \\\\$2 \\\\$3 \\\\$4 \\\\$5 \\\\$6 \\\\$7 \\\\$8 \\\\$9\\fP\n\
.el .ft R\n\
..\n\
.\\\" the beginning\n\
.if \\nL .nr LL \\nLn\n\
.if !\\n(LL .nr LL 65n\n\
.nr )width 5n\n\
.ll \\n(LLu\n\
.lt \\n(LLu\n\
.wh 0 )header\n\
.wh -5v )footer\n\
.\\\" end of tmac.l\n";
