//! The file tmac.e.

/// Its text.
pub(crate) static TEXT: &[u8] = b"\
.\\\" tmac.e: papers of Berkeley (nroff -me). nroff_me(7) says what each name does.\n\
.\\\"\n\
.\\\" Paragraphs  .pp .lp .np .bu   .ip tag width\n\
.\\\" Headings    .sh depth title numbers ..   .sx depth   .uh title   hooks $p $0 $1 .. $6\n\
.\\\" Titles      .he .fo .eh .oh .ef .of 'left'centre'right'   .hx .m1 .m2 .m3 .m4 .$h .$f .$H\n\
.\\\" Displays    .(l .)l .(q .)q   .(b .)b kept together   .(z .)z float   .(c .)c a block\n\
.\\\" Notes       \\** and then .(f .)f   \\*# and then .(d .)d, .pd   .$s\n\
.\\\" Index       .(x index .)x page author   .xp index\n\
.\\\" Columns     .2c gap number   .1c   .bc\n\
.\\\" Fonts       .r .i .b .rb .bi .u .q .bx .sm word after   .sz\n\
.\\\" Pages       .bp .pa .ep .sk .ro .ar .bl .hl .re .ba .ix .xl .ll .po .n1 .n2\n\
.\\\" Papers      .tp   .++ kind header   .+c title   hooks $c $C\n\
.\\\" References  of refer .]- .][ kind .]< .]>\n\
.\\\" Tables      .TS H .TH .TE      Others  .EQ kind title .EN .PS .PE .GS .GE .IS .IE\n\
.\\\" Options     -rLN lines of N cells (60)\n\
.\\\"\n\
.\\\" Long names are on (.cp 0). A width without a scale letter counts cells.\n\
.\\\"\n\
.\\\" There are no environments: what one keeps stands in registers while another is used,\n\
.\\\" and a line under way is kept aside. Private names begin with \"@\". Registers:\n\
.\\\"   @depth, with @in1 @ll1 .. the settings before a display   @environments depth of .ev\n\
.\\\"   @font of the text, 1 roman, 2 italics, 3 bold, and @before-font   @centred 1 while lines are centred\n\
.\\\"   @mode 1 C, 2 L, 3 I, 4 M of a display, @filled 1 for F\n\
.\\\"   @titling 1 while a title is printed   @own-top 1 if the paper has a $H\n\
.\\\"   @begun 1 from the first page on, @late 1 on that one, @first 1 while nothing stands there\n\
.\\\"   @top first place of the columns, @text-top of their text, @low lowest place of columns\n\
.\\\"   @ending 1 while a column ends   @offset page offset   @full length of a whole line\n\
.\\\"   @plain 1 on a page without header and footer, @plain-next on the next; so @chapter,\n\
.\\\"   where the header stands at the foot   @same 1 if the next page's number stays\n\
.\\\"   @blank 1 if the next page stays empty\n\
.\\\"   @row 1 while a line is kept aside, @rows its height, @set-apart1 1 if the footer\n\
.\\\"   does so, with @footers depth of footers\n\
.\\\"   @raw notes not set yet, @room kept for them, @noted height of the set ones of this\n\
.\\\"   column, @later of the next, @wide of those from above columns   @setting 1 while they are set\n\
.\\\"   @note-marks how often \\** was read, @text-marks \\*#\n\
.\\\"   @keep depth of keeps, @height of one   @float1 .. 1 for one that floats   @foot height\n\
.\\\"   of those at the foot of this page, @kept @shown those for later ones with @wait1 ..\n\
.\\\"   @in-table 1 in a table, @flat 1 where a paragraph of it is in no block, @head height\n\
.\\\"   of its head   @kind of .++, @renumber 1 where it numbers pages anew\n\
.\\\"   @entries of indexes, with @entry-end1 .. the width of the last line\n\
.\\\"   @listing 1 in a list of references, @stopped 1 where one ends with a stop\n\
.\\\" Private texts: @header-even and the like, @keep1 .., @foot-text, @wait-text1 .., @raw-notes,\n\
.\\\"   @notes, @wide-notes, @notes-later, @notes-over, @line (kept aside), @delayed, @head-text,\n\
.\\\"   @index-NAME, @entry1 .. with @entry-index1 @entry-page1 @entry-author1\n\
.cp 0\n\
.\\\" ---- what stands for an environment\n\
.rn ft @ft\n\
.de ft\n\
.@ft \\\\$1\n\
.nr @o \\\\n[@before-font]\n\
.nr @before-font \\\\n[@font]\n\
.nr @font 1\n\
.if '\\\\$1'I' .nr @font 2\n\
.if '\\\\$1'2' .nr @font 2\n\
.if '\\\\$1'B' .nr @font 3\n\
.if '\\\\$1'3' .nr @font 3\n\
.if '\\\\$1'P' .nr @font \\\\n(@o\n\
.if '\\\\$1'' .nr @font \\\\n(@o\n\
..\n\
.de @push\n\
.nr @depth +1\n\
.nr @in\\\\n[@depth] \\\\n(.i\n\
.nr @ll\\\\n[@depth] \\\\n(.l\n\
.nr @fill\\\\n[@depth] \\\\n(.u\n\
.nr @vs\\\\n[@depth] \\\\n(.v\n\
.nr @centred\\\\n[@depth] \\\\n[@centred]\n\
.nr @font\\\\n[@depth] \\\\n[@font]\n\
..\n\
.de @pop\n\
.if \\\\n[@depth] \\{\\\n\
'in \\\\n[@in\\\\n[@depth]]u\n\
.xl \\\\n[@ll\\\\n[@depth]]u\n\
.vs \\\\n[@vs\\\\n[@depth]]u\n\
.ie \\\\n[@fill\\\\n[@depth]] 'fi\n\
.el 'nf\n\
.nr @centred \\\\n[@centred\\\\n[@depth]]\n\
.ie \\\\n[@centred] 'ce 10000\n\
.el 'ce 0\n\
.ft \\\\n[@font\\\\n[@depth]]\n\
.nr @depth -1\n\
.\\}\n\
..\n\
.\\\" settings of a text set apart: those of the place, a whole line, single spaced\n\
.de @apart\n\
.xl \\\\n($lu\n\
.vs 40u\n\
'ce 0\n\
.nr @centred 0\n\
..\n\
.\\\" of environments themselves the indent\n\
.de ev\n\
.ie \\\\n(.$ \\{\\\n\
.@aside\n\
.@push\n\
.@apart\n\
.nr @environments +1\n\
.ds @environment\\\\n[@environments] \\\\$1\n\
.fi\n\
.in \\\\n[@environment-in\\\\$1]u\n\
.\\}\n\
.el .if \\\\n[@environments] .@end-environment\n\
..\n\
.de @end-environment\n\
.br\n\
.nr @environment-in\\\\*[@environment\\\\n[@environments]] \\\\n(.i\n\
.nr @environments -1\n\
.@pop\n\
.@back\n\
..\n\
.\\\" a distance; half a line is no row. In titles nothing breaks\n\
.rn sp @sp\n\
.de sp\n\
.if !\\\\n[@titling] .br\n\
.ie \\\\n(.$ '@sp \\\\$1-1u\n\
.el '@sp\n\
..\n\
.de @space\n\
.nr @o \\\\$1\n\
.if \\\\n(@o .sp \\\\n(@ou\n\
..\n\
.\\\" ---- titles, in force from the next page on\n\
.de @join\n\
.ds @joined \"\\\\\\\\$1\n\
.if \\\\\\\\n(.$>1 .as @joined \" \\\\\\\\$2\n\
.if \\\\\\\\n(.$>2 .as @joined \" \\\\\\\\$3\n\
.if \\\\\\\\n(.$>3 .as @joined \" \\\\\\\\$4\n\
.if \\\\\\\\n(.$>4 .as @joined \" \\\\\\\\$5\n\
.if \\\\\\\\n(.$>5 .as @joined \" \\\\\\\\$6\n\
.if \\\\\\\\n(.$>6 .as @joined \" \\\\\\\\$7\n\
.if \\\\\\\\n(.$>7 .as @joined \" \\\\\\\\$8\n\
.if \\\\\\\\n(.$>8 .as @joined \" \\\\\\\\$9\n\
..\n\
.de eh\n\
\\*[@join].ds @next-header-even \"\\\\*[@joined]\n\
.@first-texts\n\
..\n\
.de oh\n\
\\*[@join].ds @next-header-odd \"\\\\*[@joined]\n\
.@first-texts\n\
..\n\
.de he\n\
\\*[@join].ds @next-header-even \"\\\\*[@joined]\n\
.ds @next-header-odd \"\\\\*[@joined]\n\
.@first-texts\n\
..\n\
.de ef\n\
\\*[@join].ds @next-footer-even \"\\\\*[@joined]\n\
.@first-texts\n\
..\n\
.de of\n\
\\*[@join].ds @next-footer-odd \"\\\\*[@joined]\n\
.@first-texts\n\
..\n\
.de fo\n\
\\*[@join].ds @next-footer-even \"\\\\*[@joined]\n\
.ds @next-footer-odd \"\\\\*[@joined]\n\
.@first-texts\n\
..\n\
.de @title-of\n\
.ie e .ds @title \"\\\\*[@\\\\$1-even]\n\
.el .ds @title \"\\\\*[@\\\\$1-odd]\n\
..\n\
.de $h\n\
.if !\\\\n[@chapter] \\{\\\n\
.@title-of header\n\
.if !\\a\\\\*[@title]\\a\\a 'tl \\\\*[@title]\n\
.\\}\n\
..\n\
.de $f\n\
.ds @title\n\
.if \\\\n[@chapter] .@title-of header\n\
.if \\a\\\\*[@title]\\a\\a .@title-of footer\n\
.if !\\a\\\\*[@title]\\a\\a 'tl \\\\*[@title]\n\
..\n\
.rn de @de\n\
.@de de\n\
.if '\\\\$1'$H' .nr @own-top 1\n\
.@de \\\\$1 \\\\$2\n\
..\n\
.\\\" prints one, in its own font\n\
.de @print-title\n\
.if !\\\\n[@plain] \\{\\\n\
.lt \\\\n[@full]u\n\
.nr @title-font \\\\n[@font]\n\
.nr @title-in \\\\n(.i\n\
.nr @title-fill \\\\n(.u\n\
'in 0\n\
'nf\n\
.ft \\\\n(tf\n\
.nr @titling 1\n\
.\\\\$1\n\
.nr @titling 0\n\
.if \\\\n[@title-fill] 'fi\n\
'in \\\\n[@title-in]u\n\
.ft R\n\
.ft \\\\n[@title-font]\n\
.\\}\n\
..\n\
.\\\" what is in force when a page begins. A break begins the first one: what comes before\n\
.\\\" anything stands there counts for it, and its header is printed at its end\n\
.de @texts\n\
.rn @next-header-even @header-even\n\
.rn @next-header-odd @header-odd\n\
.rn @next-footer-even @footer-even\n\
.rn @next-footer-odd @footer-odd\n\
..\n\
.de @flags\n\
.nr @plain \\\\n[@plain-next]\n\
.nr @plain-next 0\n\
.nr @chapter \\\\n[@chapter-next]\n\
.nr @chapter-next 0\n\
..\n\
.de @look-first\n\
.nr @first 0\n\
.ie \\\\n[@begun] .if \\\\n[@late] .if \\\\n(nl<=\\\\n[@text-top] .nr @first 1\n\
.el .nr @first 1\n\
..\n\
.de @first-texts\n\
.@look-first\n\
.if \\\\n[@first] .@texts\n\
..\n\
.\\\" ---- pages\n\
.de @header\n\
.nr @late \\\\n[@begun]=0\n\
.nr @begun 1\n\
.@texts\n\
.@flags\n\
.nr @low 0\n\
.@po \\\\n[@offset]u\n\
.rs\n\
.if !\\\\n[@late] .@print-header\n\
.if \\\\n(tm<40 .nr tm 1v\n\
'@sp |\\\\n(tmu\n\
.nr @top \\\\n(nl\n\
.nr $c 1\n\
.if \\\\n[@same] .pn \\\\n%\n\
.nr @same 0\n\
.if \\\\n[@later] .@notes-wait\n\
.@place\n\
.ie \\\\n[@blank] \\{\\\n\
.nr @blank 0\n\
.rs\n\
'@bp\n\
.\\}\n\
.el .@top-of-text\n\
..\n\
.de @print-header\n\
.if \\\\n(hm>0 '@sp |\\\\n(hmu\n\
.@print-title $h\n\
.rs\n\
..\n\
.\\\" the top of a page or of a column; a line under way stays out of what a paper prints there\n\
.de @top-of-text\n\
.if \\\\n[@own-top] \\{\\\n\
.@aside\n\
.$H\n\
.br\n\
.@back\n\
.\\}\n\
.nr @text-top \\\\n(nl\n\
.ns\n\
..\n\
.de @notes-wait\n\
.rn @notes-later @notes\n\
.nr @noted \\\\n[@later]\n\
.nr @later 0\n\
..\n\
.\\\" place of the footer, above what stands at the foot\n\
.de @place\n\
.ch @footer\n\
.nr @w \\\\n[@noted]+\\\\n[@room]\n\
.if \\\\n(@w .nr @w +120u-(\\\\n[@foot]>0*40u)\n\
.if \\\\n[@wide] .nr @w +\\\\n[@wide]+120u\n\
.if \\\\n(bm<40 .nr bm 1v\n\
.nr @w \\\\n(.p-\\\\n(bm-\\\\n(@w-\\\\n[@foot]\n\
.if \\\\n(@w<(\\\\n(tm+120u) .nr @w \\\\n(tm+120u\n\
.if \\\\n(@w<=\\\\n(nl .nr @w \\\\n(nl+40u\n\
.wh \\\\n(@wu @footer\n\
..\n\
.\\\" the end of a column, with what stands at its foot; its trap is out of the way meanwhile\n\
.de @footer\n\
.rs\n\
.ch @footer\n\
.nr @ending 1\n\
.nr @w \\\\n[@raw]+\\\\n[@noted]+\\\\n[@wide]+\\\\n[@foot]+\\\\n[@head]+\\\\n[@kept]-\\\\n[@shown]\n\
.nr @footers +1\n\
.nr @set-apart\\\\n[@footers] \\\\n(@w>0\n\
.if \\\\n(@w .@aside\n\
.if \\\\n[@foot] .@print-foot\n\
.if \\\\n[@raw] .@set-at-bottom\n\
.nr @room 0\n\
.if \\\\n[@noted] .@print-notes\n\
.if \\\\n(nl>\\\\n[@low] .nr @low \\\\n(nl\n\
.ie \\\\n($c<\\\\n($m .@next-column\n\
.el .@end-page\n\
.if \\\\n[@kept]>\\\\n[@shown] .if !\\\\n[@floating] .@floats\n\
.if \\\\n[@head] .@print-head\n\
.if \\\\n[@set-apart\\\\n[@footers]] .@back\n\
.nr @footers -1\n\
..\n\
.de @next-column\n\
.nr @ending 0\n\
.rs\n\
'@sp |\\\\n[@top]u\n\
.@po +\\\\n($lu\n\
.@po +\\\\n($su\n\
.nr $c +1\n\
.if \\\\n[@later] .@notes-wait\n\
.@place\n\
.@top-of-text\n\
..\n\
.de @end-page\n\
.@po \\\\n[@offset]u\n\
.if \\\\n[@wide] .@print-wide-notes\n\
.rs\n\
.if \\\\n[@late] .@print-header\n\
.nr @late 0\n\
'@sp |(\\\\n(.pu-\\\\n(fmu-40u)\n\
.@print-title $f\n\
.nr $c 1\n\
.nr @ending 0\n\
'@bp\n\
.@place\n\
..\n\
.\\\" the line under way is kept aside; it comes back as one word\n\
.de @aside\n\
.nr @row +1\n\
.if \\\\n[@row]=1 \\{\\\n\
.di @line\n\
.br\n\
.di\n\
.nr @rows \\\\n(dn\n\
.\\}\n\
..\n\
.de @back\n\
.nr @row -1\n\
.if !\\\\n[@row] .if \\\\n[@rows] \\{\\\n\
.nr @rows 0\n\
'ti 0\n\
\\&\\\\*[@line]\\|\n\
.\\}\n\
..\n\
.\\\" a new page, which begins at once; none where nothing stands on this one, but with a number\n\
.rn bp @bp\n\
.de bp\n\
.if !\\\\n[@ending] .if '\\\\n(.z'' .@new-page \\\\$1\n\
..\n\
.de @new-page\n\
.br\n\
.@settle\n\
.@look-first\n\
.ie \\\\n[@first] \\{\\\n\
.if \\\\n[@plain-next]+\\\\n[@chapter-next] .@flags\n\
.if \\\\n(.$ .pn \\\\$1\n\
.if \\\\n(.$ .if \\\\n(nl>0 .nr % \\\\$1\n\
.\\}\n\
.el .ie \\\\n(nl>0 \\{\\\n\
.if \\\\n(.$:(\\\\n(nl>\\\\n[@text-top]) \\{\\\n\
.@eject \\\\$1\n\
.@begin\n\
.\\}\n\
.\\}\n\
.el \\{\\\n\
.if \\\\n(.$ .pn \\\\$1\n\
.@begin\n\
.\\}\n\
..\n\
.de @eject\n\
.nr $c \\\\n($m\n\
.rs\n\
.@bp \\\\$1\n\
..\n\
.de @begin\n\
.nr $c 1\n\
.if !\\\\n(nl .sp\n\
..\n\
.de pa\n\
.bp \\\\$1\n\
..\n\
.de ep\n\
.br\n\
.@settle\n\
.@look-first\n\
.if !\\\\n[@first] .if \\\\n(nl>0 .@eject\n\
..\n\
.de hx\n\
.nr @plain-next 1\n\
..\n\
.de sk\n\
.nr @blank 1\n\
..\n\
.de ro\n\
.af % i\n\
..\n\
.de ar\n\
.af % 1\n\
..\n\
.\\\" a title page; its number is that of the page before it\n\
.de tp\n\
.nr @plain-next 1\n\
.br\n\
.@look-first\n\
.ie \\\\n[@first] .nr % \\\\n%-1\n\
.el .nr @same 1\n\
.bp\n\
.rs\n\
..\n\
.\\\" begins the page, whose first lines may be empty\n\
.de @open\n\
.if !\\\\n(nl .sp\n\
.rs\n\
..\n\
.de m1\n\
.nr @w \\\\n(hm\n\
.nr hm \\\\$1v\n\
.nr tm +\\\\n(hm-\\\\n(@w\n\
..\n\
.de m2\n\
.nr tm \\\\n(hm+1v+\\\\$1v\n\
..\n\
.de m3\n\
.nr bm \\\\n(fm+1v+\\\\$1v\n\
..\n\
.de m4\n\
.nr @w \\\\n(fm\n\
.nr fm \\\\$1v\n\
.nr bm +\\\\n(fm-\\\\n(@w\n\
..\n\
.rn ll xl\n\
.de ll\n\
.xl \\\\$1\n\
.lt \\\\n(.lu\n\
.nr $l \\\\n(.l\n\
.if \\\\n($m<2 .nr @full \\\\n(.l\n\
..\n\
.rn po @po\n\
.de @set-offset\n\
.@po \\\\$1\n\
.nr @offset \\\\n(.o\n\
..\n\
.de ix\n\
'in \\\\$1\n\
..\n\
.de bl\n\
.br\n\
.ne \\\\$1\n\
.rs\n\
.sp \\\\$1\n\
..\n\
.de n1\n\
..\n\
.de n2\n\
..\n\
.de ls\n\
.nr @w 1\n\
.if \\\\n(.$ .nr @w \\\\$1\n\
.if \\\\n(@w<1 .nr @w 1\n\
.vs 40u*\\\\n(@wu\n\
..\n\
.de re\n\
.ta 5 10 15 20 25 30 35 40 45 50 55 60 65 70 75 80 85 90 95 100 105 110 115 120\n\
..\n\
.de ba\n\
.ie \\\\n(.$ .nr $i \\\\$1n\n\
.el .nr $i \\\\n(si*\\\\n($0\n\
..\n\
.de hl\n\
.ti \\\\n(.iu\n\
\\l'\\\\n(.lu-\\\\n(.iu'\n\
.sp\n\
..\n\
.\\\" ---- columns\n\
.de 2c\n\
.br\n\
.@close\n\
.@settle\n\
.if \\\\n($m>1 .1c\n\
.if \\\\n[@noted]+200>(\\\\n(.p-\\\\n(bm-\\\\n(nl) .if \\\\n[@noted] .@last\n\
.if \\\\n[@later] .@last\n\
.if \\\\n[@noted] .@widen-notes\n\
.nr $c 1\n\
.nr $m 2\n\
.if \\\\n(.$>1 .nr $m \\\\$2\n\
.if \\\\n($m<1 .nr $m 1\n\
.if \\\\n(.$ .nr $s \\\\$1n\n\
.if !\\\\n(nl .@open\n\
.nr $l \\\\n(.l-((\\\\n($m-1)*\\\\n($s)/\\\\n($m\n\
.if \\\\n($l<24 .nr $l 24\n\
.xl \\\\n($lu\n\
.nr @top \\\\n(nl\n\
.nr @text-top \\\\n(nl\n\
.nr @low 0\n\
.@place\n\
.ns\n\
..\n\
.de 1c\n\
.br\n\
.@close\n\
.if \\\\n($m>1 \\{\\\n\
.@settle\n\
.if \\\\n(nl>\\\\n[@low] .nr @low \\\\n(nl\n\
.if \\\\n[@noted]+\\\\n[@later]+\\\\n[@wide]+\\\\n[@foot] .@end-columns\n\
.nr $c 1\n\
.nr $m 1\n\
.nr $l \\\\n[@full]\n\
.xl \\\\n[@full]u\n\
.@po \\\\n[@offset]u\n\
.rs\n\
.if \\\\n(nl<\\\\n[@low] '@sp |\\\\n[@low]u\n\
.@place\n\
.\\}\n\
..\n\
.\\\" notes from above the columns stand below all of them\n\
.de @widen-notes\n\
.nr @wide \\\\n[@noted]\n\
.nr @noted 0\n\
.rn @notes @wide-notes\n\
..\n\
.de @print-wide-notes\n\
.rs\n\
.if \\\\n(nl<\\\\n[@low] '@sp |\\\\n[@low]u\n\
.rn @wide-notes @notes\n\
.nr @wide 0\n\
.@print-notes\n\
.if \\\\n[@later] \\{\\\n\
.rn @notes-later @wide-notes\n\
.nr @wide \\\\n[@later]\n\
.nr @later 0\n\
.\\}\n\
..\n\
.\\\" notes and floats at the foot of columns end the page\n\
.de @end-columns\n\
.@eject\n\
.@open\n\
..\n\
.de bc\n\
.br\n\
.@close\n\
.@settle\n\
.rs\n\
.ie \\\\n($m>1 '@sp \\\\n(.tu\n\
.el .if \\\\n(nl .bp\n\
..\n\
.\\\" ---- paragraphs\n\
.de @paragraph\n\
.if \\\\n[@in-equation] .EN\n\
.if '\\\\n(.z'@entry' .)x\n\
.br\n\
.ie \\\\n[@in-table] .@table-paragraph \\\\$1\n\
.el \\{\\\n\
.in \\\\n($iu+\\\\n(pou\n\
.if \\\\n(.$ .in +\\\\$1u\n\
.ce 0\n\
.nr @centred 0\n\
.ul 0\n\
.fi\n\
.ie \\\\n(pf .ft \\\\n(pf\n\
.el .ft R\n\
.@settle\n\
.@space \\\\n(ps\n\
.ne 2v\n\
.ns\n\
.\\}\n\
..\n\
.\\\" in a table: in a text block its indent, which counts from there\n\
.de @table-paragraph\n\
.nr @flat 0\n\
.ft R\n\
.ie '\\\\n(.z'\\\\*[@table-in]' .nr @flat 1\n\
.el \\{\\\n\
.in 0\n\
.if \\\\n(.$ .in \\\\$1u\n\
.\\}\n\
..\n\
.\\\" notes that wait are set where no line is under way\n\
.de @settle\n\
.if \\\\n[@raw] .if '\\\\n(.z'' .if !\\\\n[@setting] .@set-now\n\
..\n\
.de lp\n\
.@paragraph\n\
.nr $p 0 1\n\
..\n\
.de pp\n\
.@paragraph\n\
.ti +\\\\n(piu\n\
.nr $p 0 1\n\
..\n\
.de ip\n\
.nr @width \\\\n(ii\n\
.if \\\\n(ii<24 .nr @width \\\\n(ii*24\n\
.if \\\\n(.$>1 .nr @width \\\\$2n\n\
.ds @tag \"\\\\$1\n\
.nr @tag-width \\w\\a\\\\$1\\a\n\
.@paragraph \\\\n[@width]\n\
.if \\\\n[@tag-width] .@print-tag\n\
..\n\
.\\\" a tag, whose blanks stay as they are\n\
.de @print-tag\n\
.ie \\\\n[@flat] \\&\\\\*[@tag]\\ \\c\n\
.el \\{\\\n\
.ti -\\\\n[@width]u\n\
.ie \\\\n[@tag-width]<\\\\n[@width] \\{\\\n\
'nf\n\
\\&\\\\*[@tag]\\h\\a|\\\\n[@width]u\\a\\c\n\
'fi\n\
.\\}\n\
.el \\{\\\n\
\\&\\\\*[@tag]\n\
.br\n\
.\\}\n\
.\\}\n\
..\n\
.de np\n\
.if '\\\\n($p'-1' .nr $p 0\n\
.nr $p +1\n\
.nr @width 7n\n\
.ds @tag \"\\ (\\\\n($p)\n\
.nr @tag-width 1n\n\
.@paragraph \\\\n[@width]\n\
.@print-tag\n\
..\n\
.de bu\n\
.br\n\
.if '\\\\n($p'-1' .ns\n\
.nr $p 0-1\n\
.nr @width 3n\n\
.ds @tag \"\\ \\(bu\n\
.nr @tag-width 1n\n\
.@paragraph \\\\n[@width]\n\
.@print-tag\n\
..\n\
.\\\" ---- headings\n\
.de sh\n\
.br\n\
.if '\\\\n(.z'@entry' .)x\n\
.fi\n\
.ce 0\n\
.nr @centred 0\n\
.if !'\\\\$1'' .nr $0 \\\\$1\n\
.if \\\\n($0>6 .nr $0 6\n\
.if \\\\n($0>0 .nr $\\\\n($0 +1\n\
.@numbers \\\\$3 \\\\$4 \\\\$5 \\\\$6 \\\\$7 \\\\$8\n\
.if !\\a\\\\$2\\a_\\a \\{\\\n\
.ds @heading \"\\&\\\\$2\n\
.$p \"\\\\\\\\*[@heading]\" \"\\\\*($n\" \\\\n($0\n\
.$0 \"\\\\\\\\*[@heading]\" \"\\\\*($n\" \\\\n($0\n\
.\\}\n\
.nr $p 0 1\n\
..\n\
.\\\" the numbers of the sections, and the name $n\n\
.de @numbers\n\
.ds $n \\&\n\
.@number 1 \"\\\\$1\"\n\
.@number 2 \"\\\\$2\"\n\
.@number 3 \"\\\\$3\"\n\
.@number 4 \"\\\\$4\"\n\
.@number 5 \"\\\\$5\"\n\
.@number 6 \"\\\\$6\"\n\
..\n\
.de @number\n\
.ie \\\\n($0<\\\\$1 .nr $\\\\$1 0\n\
.el \\{\\\n\
.if !\\\\n($\\\\$1 .nr $\\\\$1 1\n\
.if !'\\\\$2'' .if !'\\\\$2'-' .nr $\\\\$1 \\\\$2\n\
.if \\\\$1>1 .as $n .\n\
.as $n \\\\n($\\\\$1\n\
.\\}\n\
..\n\
.de sx\n\
.br\n\
.ce 0\n\
.nr @w \\\\n($0-1\n\
.if \\\\n(.$ .nr @w \\\\n($0\n\
.if \\\\n(.$ .nr @w \\\\$1\n\
.nr $0 \\\\n(@w\n\
.@numbers\n\
.$p \"\" \"\" \\\\n($0\n\
.nr $p 0 1\n\
..\n\
.de uh\n\
.ds @heading \"\\\\$1\n\
.$p \"\\\\\\\\*[@heading]\"\n\
.$0 \"\\\\\\\\*[@heading]\"\n\
..\n\
.de $p\n\
.br\n\
.if \\\\n[@in-equation] .EN\n\
.if \\\\n(si>0 .if \\\\n(si<24 .nr si \\\\n(si*24\n\
.if \\\\n(si>0 .if \\\\n(.$>2 .nr $i \\\\$3*\\\\n(si\n\
.in \\\\n($iu\n\
.ce 0\n\
.fi\n\
.@settle\n\
.ie \\a\\\\$1\\\\$2\\a\\a \\{\\\n\
.@space \\\\n(ps\n\
.ft R\n\
.\\}\n\
.el \\{\\\n\
.@space \\\\n(ss\n\
.ne 3v+\\\\n(psu\n\
.ie 0\\\\$3 .ti -(\\\\n(siu-\\\\n(sou)\n\
.el .ti +\\\\n(sou\n\
.ft \\\\n(sf\n\
.if 0\\\\$3 .$\\\\$3\n\
.if \\w\\a\\\\$2\\a>0 \\\\$2.\n\
.if \\w\\a\\\\$1\\a>0 \\\\$1\\fR\\ \\ \\&\n\
.ft R\n\
.\\}\n\
..\n\
.de $0\n\
..\n\
.de $1\n\
..\n\
.de $2\n\
..\n\
.de $3\n\
..\n\
.de $4\n\
..\n\
.de $5\n\
..\n\
.de $6\n\
..\n\
.\\\" ---- displays: C in the middle, L at the left, I indented, M at the margin; F filled\n\
.de @set-mode\n\
.nr @mode \\\\$1\n\
.nr @filled 0\n\
.@letter \\\\$2\n\
.@letter \\\\$3\n\
..\n\
.de @letter\n\
.if '\\\\$1'C' .nr @mode 1\n\
.if '\\\\$1'L' .nr @mode 2\n\
.if '\\\\$1'I' .nr @mode 3\n\
.if '\\\\$1'M' .nr @mode 4\n\
.if '\\\\$1'F' .nr @filled 1\n\
..\n\
.de @display\n\
.@push\n\
.@apart\n\
.ie \\\\n[@filled] .fi\n\
.el .nf\n\
.if \\\\n(df>1 .ft \\\\n(df\n\
.if \\\\n[@mode]=4 .in 0\n\
.if \\\\n[@mode]=3 \\{\\\n\
.in +\\\\n(biu\n\
.xl -\\\\n(biu\n\
.\\}\n\
.if \\\\n[@mode]=1 \\{\\\n\
.nr @centred 1\n\
.ce 10000\n\
.\\}\n\
..\n\
.de (l\n\
.br\n\
.@settle\n\
.@space \\\\n(bs\n\
.@set-mode 3 \\\\$1 \\\\$2\n\
.@display\n\
..\n\
.de )l\n\
.br\n\
.@pop\n\
.@settle\n\
.@space \\\\n(bs\n\
..\n\
.de (q\n\
.br\n\
.@settle\n\
.@push\n\
.@apart\n\
.fi\n\
.@space \\\\n(qs\n\
.in +\\\\n(qiu\n\
.xl -\\\\n(qiu\n\
..\n\
.de )q\n\
.br\n\
.@pop\n\
.@settle\n\
.@space \\\\n(qs\n\
..\n\
.\\\" ---- keeps: set apart, then placed where they fit, with their notes\n\
.de (b\n\
.br\n\
.@settle\n\
.@space \\\\n(bs\n\
.@set-mode 3 \\\\$1 \\\\$2\n\
.@begin-keep\n\
..\n\
.de @begin-keep\n\
.@display\n\
.nr @keep +1\n\
.nr @float\\\\n[@keep] 0\n\
.di @keep\\\\n[@keep]\n\
.rs\n\
..\n\
.\\\" ends it; what was begun in it and has no end ends too\n\
.de @end-keep\n\
.br\n\
.if '\\\\n(.z'@equation' .EN\n\
.if '\\\\n(.z'@block' .)c\n\
.di\n\
.@pop\n\
.nr @height \\\\n(dn\n\
..\n\
.de )b\n\
.br\n\
.if \\\\n[@keep] .ie \\\\n[@float\\\\n[@keep]] .)z\n\
.el \\{\\\n\
.@end-keep\n\
.@put-keep\n\
.@space \\\\n(bs\n\
.\\}\n\
..\n\
.de @put-keep\n\
.nr @note-height 0\n\
.if '\\\\n(.z'' .if \\\\n[@raw] .@set\n\
.if '\\\\n(.z'' .if \\\\n(bt=0:(\\\\n(.t<\\\\n(bt) .@need \\\\n[@height]+\\\\n[@note-height]\n\
.nr @keep-in \\\\n(.i\n\
.nr @keep-fill \\\\n(.u\n\
'in 0\n\
'nf\n\
.@keep\\\\n[@keep]\n\
.rm @keep\\\\n[@keep]\n\
'in \\\\n[@keep-in]u\n\
.if \\\\n[@keep-fill] 'fi\n\
.nr @keep -1\n\
.if \\\\n[@note-height] .@allot\n\
..\n\
.\\\" room, but for what stands at a column's top\n\
.de @need\n\
.if \\\\n(nl>\\\\n[@text-top] .if '\\\\n(.z'' .if \\\\n(.t<(\\\\$1) \\{\\\n\
.rs\n\
'@sp \\\\n(.tu\n\
.\\}\n\
..\n\
.\\\" a block in the middle, in a keep or by itself\n\
.de (c\n\
.br\n\
.@settle\n\
.@push\n\
.if '\\\\n(.z'' .@apart\n\
.nr @block-in \\\\n(.i\n\
.di @block\n\
..\n\
.de )c\n\
.br\n\
.if '\\\\n(.z'@block' \\{\\\n\
.di\n\
.@pop\n\
.nr @w \\\\n(.l-\\\\n(.i-\\\\n(dl/2\n\
.if \\\\n(@w<0 .nr @w 0\n\
.@push\n\
.nf\n\
.ce 0\n\
.in \\\\n(@wu\n\
.@block\n\
.rm @block\n\
.@pop\n\
.\\}\n\
..\n\
.\\\" ---- keeps that float: to the foot of the page, or to the top of a later one\n\
.de (z\n\
.ie '\\\\n(.z'' \\{\\\n\
.@aside\n\
.@set-mode 4 \\\\$1 \\\\$2\n\
.@begin-keep\n\
.nr @float\\\\n[@keep] 1\n\
.\\}\n\
.el .(b \\\\$1 \\\\$2\n\
..\n\
.de )z\n\
.br\n\
.if \\\\n[@keep] .ie \\\\n[@float\\\\n[@keep]] .@end-float\n\
.el .)b\n\
..\n\
.de (t\n\
.(z \\\\$1 \\\\$2\n\
..\n\
.de )t\n\
.)z\n\
..\n\
.de @end-float\n\
.@space \\\\n(zs\n\
.@end-keep\n\
.nr @height +\\\\n(zs\n\
.nr @w \\\\n(.t-\\\\n[@rows]\n\
.if !\\\\n(nl .nr @w \\\\n(.p-\\\\n(tm-\\\\n(bm-\\\\n[@rows]\n\
.ie \\\\n[@kept]-\\\\n[@shown]+(\\\\n[@height]+60>=\\\\n(@w) \\{\\\n\
.nr @kept +1\n\
.nr @wait\\\\n[@kept] \\\\n[@height]\n\
.rn @keep\\\\n[@keep] @wait-text\\\\n[@kept]\n\
.\\}\n\
.el .@at-foot\n\
.nr @keep -1\n\
.@back\n\
..\n\
.de @at-foot\n\
.nr @foot +\\\\n[@height]+80u\n\
.@push\n\
'in 0\n\
'nf\n\
.da @foot-text\n\
.@space \\\\n(zs\n\
.@keep\\\\n[@keep]\n\
.da\n\
.rm @keep\\\\n[@keep]\n\
.@pop\n\
.if \\\\n(nl .@place\n\
..\n\
.de @print-foot\n\
.nr @foot-in \\\\n(.i\n\
.nr @foot-fill \\\\n(.u\n\
'in 0\n\
'nf\n\
.nr @foot 0\n\
.@foot-text\n\
.rm @foot-text\n\
'in \\\\n[@foot-in]u\n\
.if \\\\n[@foot-fill] 'fi\n\
..\n\
.\\\" those that wait, at the top: the first in any case\n\
.de @floats\n\
.nr @floating 1\n\
.nr @force 1\n\
.@next-float\n\
.nr @floating 0\n\
..\n\
.de @next-float\n\
.nr @i \\\\n[@shown]+1\n\
.nr @w \\\\n(.t\n\
.if !\\\\n(nl .nr @w \\\\n(.p-\\\\n(tm-\\\\n(bm\n\
.if \\\\n[@force] .nr @w \\\\n[@wait\\\\n(@i]\n\
.nr @force 0\n\
.if \\\\n(@w>=\\\\n[@wait\\\\n(@i] \\{\\\n\
.nr @shown \\\\n(@i\n\
.nr @foot-in \\\\n(.i\n\
.nr @foot-fill \\\\n(.u\n\
'in 0\n\
'nf\n\
.if !\\\\n(nl .@open\n\
.@space \\\\n(zs\n\
.@wait-text\\\\n[@shown]\n\
.rm @wait-text\\\\n[@shown]\n\
'in \\\\n[@foot-in]u\n\
.if \\\\n[@foot-fill] 'fi\n\
.if \\\\n[@kept]>\\\\n[@shown] .@next-float\n\
.\\}\n\
..\n\
.\\\" ---- notes: the text is set at the next break, or where room is short if that comes first\n\
.de (f\n\
.nr @raw +1\n\
.am @raw-notes )f\n\
.@note \\\\$1\n\
..\n\
.de )f\n\
.if \\\\n+[@note-marks]>1 .nr $f +1\n\
.nr @note-marks 0 1\n\
.if '\\\\n(.z'' .if !\\\\n[@keep] .if !\\\\n[@setting] .@note-read\n\
..\n\
.\\\" ten lines and more are left for each, so that it stands on the page of its mark\n\
.de @note-read\n\
.nr @room \\\\n[@raw]*120u\n\
.if \\\\n(nl .@place\n\
.@look\n\
..\n\
.de @look\n\
.if \\\\n[@raw] .if '\\\\n(.z'' \\{\\\n\
.nr @w \\\\n(.p-\\\\n(bm-\\\\n[@noted]-\\\\n[@foot]-\\\\n(nl-(400u*\\\\n[@raw])\n\
.ie \\\\n(@w<200 .if \\\\n(nl .@set-aside\n\
.el .it 1 @look\n\
.\\}\n\
..\n\
.\\\" sets them while a line is under way\n\
.de @set-aside\n\
.@aside\n\
.@set\n\
.nr @room 0\n\
.@place\n\
.nr @w \\\\n[@noted]=0*120u+\\\\n[@rows]+80u\n\
.if \\\\n(.t<\\\\n(@w .if \\\\n(nl>\\\\n[@text-top] \\{\\\n\
.rs\n\
'@sp \\\\n(.tu\n\
.\\}\n\
.@allot\n\
.@back\n\
..\n\
.\\\" begins a note\n\
.de @note\n\
.br\n\
.ft R\n\
.if \\\\n(ff>1 .ft \\\\n(ff\n\
.fi\n\
.ce 0\n\
.in 0\n\
.xl \\\\n($lu-\\\\n(fuu\n\
.@space \\\\n(fs\n\
.if !'\\\\$1'_' .ti \\\\n(fiu\n\
..\n\
.\\\" sets the notes that wait to be set; no line is under way\n\
.de @set\n\
.@push\n\
.@apart\n\
.nr @setting 1\n\
.nr @raw 0\n\
.nr @set-keep \\\\n[@keep]\n\
.nr @keep 100\n\
.rn @raw-notes @set-notes\n\
.di @new-notes\n\
.@set-notes\n\
.br\n\
.if '\\\\n(.z'@keep101' .)b\n\
.di\n\
.rm @set-notes\n\
.nr @keep \\\\n[@set-keep]\n\
.nr @note-height \\\\n(dn\n\
.nr @setting 0\n\
.@pop\n\
..\n\
.de @set-now\n\
.@set\n\
.nr @room 0\n\
.@place\n\
.@allot\n\
..\n\
.de @set-at-bottom\n\
.@set\n\
.nr @w \\\\n[@later]\n\
.if \\\\n(.p-\\\\n(nl-\\\\n(bm<(\\\\n[@noted]+\\\\n[@note-height]+120u) .nr @w 1\n\
.@store\n\
..\n\
.\\\" for this page, if two lines have room and none waits, else for the next\n\
.de @allot\n\
.nr @w \\\\n[@later]\n\
.nr @o \\\\n(.t\n\
.if !\\\\n(nl .nr @o \\\\n(.p-\\\\n(tm-\\\\n(bm\n\
.nr @rest \\\\n[@note-height]\n\
.if \\\\n[@rest]>80 .nr @rest 80\n\
.if \\\\n(@o<(\\\\n[@noted]=0*120u+\\\\n[@rest]+\\\\n[@rows]) .nr @w 1\n\
.@store\n\
.@place\n\
..\n\
.de @store\n\
.nr @n-in \\\\n(.i\n\
.nr @n-fill \\\\n(.u\n\
'in 0\n\
'nf\n\
.ie \\\\n(@w \\{\\\n\
.da @notes-later\n\
.nr @later +\\\\n[@note-height]\n\
.\\}\n\
.el \\{\\\n\
.da @notes\n\
.nr @noted +\\\\n[@note-height]\n\
.\\}\n\
.@new-notes\n\
.di\n\
'in \\\\n[@n-in]u\n\
.if \\\\n[@n-fill] 'fi\n\
.rm @new-notes\n\
..\n\
.de $s\n\
\\l'2i'\n\
.br\n\
..\n\
.\\\" what has no room is for the next page, before the notes that wait\n\
.de @print-notes\n\
.@push\n\
.@apart\n\
'in 0\n\
'nf\n\
.nr @noted 0\n\
.$s\n\
.wh -\\\\n(fmu-80u @catch\n\
.@notes\n\
.if '\\\\n(.z'@notes-over' .@end-catch\n\
.ch @catch\n\
.rm @notes\n\
.@pop\n\
..\n\
.de @catch\n\
.di @notes-over\n\
..\n\
.de @end-catch\n\
.nr @over \\\\n(.d\n\
.if \\\\n[@later] .@notes-later\n\
.di\n\
.rm @notes-later\n\
.rn @notes-over @notes-later\n\
.nr @later +\\\\n[@over]\n\
..\n\
.\\\" ---- delayed text\n\
.de (d\n\
.am @delayed )d\n\
.@space \\\\n(bs\n\
..\n\
.de )d\n\
.if \\\\n+[@text-marks]>1 .nr $d +1\n\
.nr @text-marks 0 1\n\
..\n\
.de pd\n\
.br\n\
.@settle\n\
.@delayed\n\
.rm @delayed\n\
.nr $d 1\n\
..\n\
.\\\" ---- index: an entry is set as it is read, its page and dots come where it is printed\n\
.de (x\n\
.ds @index x\n\
.if \\\\n(.$ .ds @index \\\\$1\n\
.@aside\n\
.@push\n\
.@apart\n\
.di @entry\n\
.fi\n\
.ft R\n\
.in \\\\n(piu\n\
.xl \\\\n($lu-\\\\n(xuu-3n\n\
.ti -\\\\n(piu\n\
.rn in @in\n\
.rn @entry-in in\n\
..\n\
.\\\" an indent within one is that of its first line too\n\
.de @entry-in\n\
.@in \\\\$1\n\
.ti \\\\n(.iu\n\
..\n\
.de )x\n\
.if '\\\\n(.z'@entry' \\{\\\n\
.rn in @entry-in\n\
.rn @in in\n\
.br\n\
.nr @w \\\\n(.i+\\\\n(.n\n\
.di\n\
.if \\\\n(dn<80 .nr @w \\\\n(dl\n\
.nr @entries +1\n\
.nr @entry-end\\\\n[@entries] \\\\n(@w\n\
.rn @entry @entry\\\\n[@entries]\n\
.ds @entry-index\\\\n[@entries] \\\\*[@index]\n\
.ds @entry-page\\\\n[@entries] \\\\\\\\n%\n\
.if \\\\n(.$ .ds @entry-page\\\\n[@entries] \"\\\\$1\n\
.if !\\\\n(dn .ds @entry-page\\\\n[@entries] _\n\
.ds @entry-author\\\\n[@entries] \"\\\\$2\n\
.@pop\n\
.@enter \\\\n[@entries]\n\
.@back\n\
.\\}\n\
..\n\
.\\\" one in a keep gets its page where that is printed\n\
.de @enter\n\
.ie '\\\\n(.z'' .@store-entry \\\\$1\n\
.el \\!.@enter \\\\$1\n\
..\n\
.de @store-entry\n\
.ds @page \"\\\\*[@entry-page\\\\$1]\n\
.@push\n\
.da @index-\\\\*[@entry-index\\\\$1]\n\
'nf\n\
'in 0\n\
.@space \\\\n(xs\n\
.@entry\\\\$1\n\
.if !'\\\\*[@page]'_' \\{\\\n\
\\!.ds @author \"\\\\*[@entry-author\\\\$1]\n\
\\!.@dots \\\\n[@entry-end\\\\$1] \"\\\\*[@page]\"\n\
.\\}\n\
.da\n\
.@pop\n\
.rm @entry\\\\$1\n\
.rm @entry-index\\\\$1\n\
.rm @entry-page\\\\$1\n\
.rm @entry-author\\\\$1\n\
.rr @entry-end\\\\$1\n\
..\n\
.de @dots\n\
.rs\n\
'@sp -1\n\
.nr @w \\w\\a\\\\*[@author]\\\\$2\\a\n\
.nr @o \\\\n($l-\\\\n(.i-\\\\n(@w\n\
.if \\\\n(@o<(\\\\$1+1n) .nr @o \\\\$1+1n\n\
.nr @dots \\\\n($l-\\\\n(.i-\\\\n(xu-\\\\$1-1n\n\
.if \\\\n[@dots]+\\\\$1+1n>\\\\n(@o .nr @dots \\\\n(@o-\\\\$1-1n\n\
.if \\\\n[@dots]<0 .nr @dots 0\n\
\\h'\\\\$1u'\\ \\l'\\\\n[@dots]u.'\\h'|\\\\n(@ou'\\\\*[@author]\\\\$2\n\
..\n\
.\\\" one that is wider than a column stands below all of them\n\
.de xp\n\
.br\n\
.@close\n\
.@settle\n\
.ds @index x\n\
.if \\\\n(.$ .ds @index \\\\$1\n\
.if \\\\n($m>1 .@measure-index\n\
.@push\n\
.@apart\n\
.nf\n\
.@index-\\\\*[@index]\n\
.rm @index-\\\\*[@index]\n\
.@pop\n\
..\n\
.de @measure-index\n\
.@push\n\
.nf\n\
.di @measure\n\
.@index-\\\\*[@index]\n\
.br\n\
.di\n\
.rm @measure\n\
.@pop\n\
.if \\\\n(dl>\\\\n($l .1c\n\
..\n\
.\\\" ---- chapters\n\
.de ++\n\
.nr @kind 0\n\
.nr @renumber 0\n\
.if '\\\\$1'C' .nr @kind 1\n\
.if '\\\\$1'RC' .nr @kind 1\n\
.if '\\\\$1'A' .nr @kind 2\n\
.if '\\\\$1'RA' .nr @kind 2\n\
.if '\\\\$1'P' .nr @kind 3\n\
.if '\\\\$1'B' .nr @kind 4\n\
.if '\\\\$1'AB' .nr @kind 5\n\
.if '\\\\$1'RC' .nr @renumber 1\n\
.if '\\\\$1'RA' .nr @renumber 1\n\
.ep\n\
.nr ch 0 1\n\
.nr @o 0\n\
.if \\\\n[@kind]=3:(\\\\n[@kind]=5) .nr @o 1\n\
.if \\\\n(_M=3 .if !\\\\n[@kind]=3 .nr @o 1\n\
.if \\\\n(@o .pn 1\n\
.if \\\\n[@kind]=1 .af ch 1\n\
.if \\\\n[@kind]=2 .af ch A\n\
.ie \\\\n[@kind]=3 .af % i\n\
.el .af % 1\n\
.if \\\\n(.$>1 \\{\\\n\
.ds @next-header-even \"\\\\$2\n\
.ds @next-header-odd \"\\\\$2\n\
.@first-texts\n\
.\\}\n\
.nr _M \\\\n[@kind]\n\
..\n\
.de +c\n\
.br\n\
.@close\n\
.ep\n\
.nr @chapter-next 1\n\
.nr $f 1\n\
.nr @note-marks 0 1\n\
.if \\\\n[@renumber] .pn 1\n\
.bp\n\
.in \\\\n($iu\n\
.@open\n\
.ds @heading \"\\\\$1\n\
.ie \\\\n(.$ .$c \"\\\\\\\\*[@heading]\"\n\
.el .sp 3\n\
..\n\
.de $c\n\
.br\n\
.ft B\n\
.ce 1000\n\
.if \\\\n(_M<3 .nr ch +1\n\
.ie \\\\n(_M=1 CHAPTER\\ \\ \\\\n(ch\n\
.el .if \\\\n(_M=2 APPENDIX\\ \\ \\\\n(ch\n\
.if \\w\\a\\\\$1\\a \\{\\\n\
.sp 2\n\
\\\\$1\n\
.\\}\n\
.if \\\\n(_M<3:\\w\\a\\\\$1\\a .sp 3\n\
.ce 0\n\
.ft R\n\
.ie \\\\n(_M=1 .$C Chapter \\\\n(ch \"\\\\\\\\*[@heading]\"\n\
.el .if \\\\n(_M=2 .$C Appendix \\\\n(ch \"\\\\\\\\*[@heading]\"\n\
..\n\
.de $C\n\
..\n\
.\\\" of other editions: a thesis, a paper for the ACM, local macros\n\
.de th\n\
..\n\
.de ac\n\
.ds @next-footer-even \"'\\\\$1''%'\n\
.ds @next-footer-odd \"'\\\\$1''%'\n\
.@first-texts\n\
..\n\
.de lo\n\
..\n\
.\\\" ---- tables; the head of one with a head stands again on each page\n\
.de TS\n\
.br\n\
.@settle\n\
.@space \\\\n(bs\n\
.@push\n\
.@apart\n\
.nr @in-table 1\n\
.ds @table-in \\\\n(.z\n\
.nf\n\
.nr *box 0\n\
.if '\\\\$1'H' \\{\\\n\
.nr @in-head 1\n\
.di @head-text\n\
.\\}\n\
..\n\
.de TH\n\
.if \\\\n[@in-head] .if '\\\\n(.z'@head-text' .@end-head\n\
..\n\
.de @end-head\n\
.br\n\
.di\n\
.nr @in-head 0\n\
.nr @head-height \\\\n(dn\n\
.@need \\\\n[@head-height]+40u\n\
.nr @head-in \\\\n(.i\n\
.in 0\n\
.rn ne @ne\n\
.@head-text\n\
.rn @ne ne\n\
.in \\\\n[@head-in]u\n\
.if '\\\\n(.z'' .if \\\\n[@head-height]<(\\\\n(.p-\\\\n(tm-\\\\n(bm-80u) .nr @head \\\\n[@head-height]\n\
..\n\
.de @print-head\n\
.nr @head-in \\\\n(.i\n\
'in 0\n\
.rn ne @ne\n\
.@head-text\n\
.rn @ne ne\n\
'in \\\\n[@head-in]u\n\
..\n\
.de TE\n\
.TH\n\
.br\n\
.if \\\\n[@in-table] .@pop\n\
.nr @in-table 0\n\
.nr @flat 0\n\
.nr @head 0\n\
.@settle\n\
.nr @w \\\\n(bs\n\
.if \\\\n[*box] .nr @w -1v\n\
.nr *box 0\n\
.if \\\\n(@w>0 .@space \\\\n(@w\n\
.re\n\
..\n\
.de T&\n\
..\n\
.\\\" ---- equations and pictures: what stands between, set apart\n\
.de EQ\n\
.if \\\\n[@in-equation] .EN\n\
.if !'\\\\n(.z'@equation' \\{\\\n\
.br\n\
.@settle\n\
.ds @equation-title\n\
.nr @equation-mode 1\n\
.@equation-kind \"\\\\$1\"\n\
.ie \\\\n(@w .ds @equation-title \"\\\\$2\n\
.el .ds @equation-title \"\\\\$1\n\
.@push\n\
.@apart\n\
.nf\n\
.in 0\n\
.di @equation\n\
.\\}\n\
.nr @in-equation 1\n\
..\n\
.de @equation-kind\n\
.nr @w 0\n\
.if '\\\\$1'C' .nr @w 1\n\
.if '\\\\$1'L' .nr @w 2\n\
.if '\\\\$1'I' .nr @w 3\n\
.if '\\\\$1'M' .nr @w 4\n\
.if \\\\n(@w .nr @equation-mode \\\\n(@w\n\
..\n\
.de EN\n\
.nr @in-equation 0\n\
.if '\\\\n(.z'@equation' \\{\\\n\
.br\n\
.ie '\\\\$1'C' .@space \\\\n(es\n\
.el \\{\\\n\
.di\n\
.@pop\n\
.nr @height \\\\n(dn\n\
.nr @equation-width \\\\n(dl\n\
.if \\\\n(dn:\\w\\a\\\\*[@equation-title]\\a .@put-equation\n\
.\\}\n\
.\\}\n\
..\n\
.de @put-equation\n\
.@space \\\\n(es\n\
.@need \\\\n[@height]+80u\n\
.@push\n\
.@apart\n\
.nf\n\
.nr @equation-at 0\n\
.if \\\\n[@equation-mode]=1 .nr @equation-at (\\\\n(.l+\\\\n($i-\\\\n[@equation-width])/2\n\
.if \\\\n[@equation-mode]=2 .nr @equation-at \\\\n($i\n\
.if \\\\n[@equation-mode]=3 .nr @equation-at \\\\n($i+\\\\n(bi\n\
.if \\\\n[@equation-at]<0 .nr @equation-at 0\n\
.in \\\\n[@equation-at]u\n\
.@equation\n\
.rm @equation\n\
.in 0\n\
.nr @w \\\\n(.l-\\w\\a\\\\*[@equation-title]\\a\n\
.if \\w\\a\\\\*[@equation-title]\\a \\{\\\n\
.rs\n\
.if '\\\\n(.z'' .if \\\\n[@height] .if \\\\n[@equation-at]+\\\\n[@equation-width]+1n<=\\\\n(@w '@sp -1\n\
\\&\\h'\\\\n(@wu'\\\\*[@equation-title]\n\
.\\}\n\
.@pop\n\
.@space \\\\n(es\n\
..\n\
.de PS\n\
.br\n\
.@settle\n\
.@push\n\
.nf\n\
..\n\
.de PE\n\
.br\n\
.if \\\\n[@depth] .@pop\n\
.@space 1v\n\
..\n\
.de PF\n\
.PE\n\
..\n\
.de GS\n\
.PS\n\
..\n\
.de GE\n\
.PE\n\
..\n\
.de GF\n\
.PE\n\
..\n\
.de IS\n\
.PS\n\
..\n\
.de IE\n\
.PE\n\
..\n\
.de IF\n\
.PE\n\
..\n\
.\\\" ---- fonts: a word, and what stands right after it; of more words all; without words from here on\n\
.de sz\n\
..\n\
.de r\n\
.if \\\\n(.$>2 \\{\\\n\
\\*[@join].\\}\n\
.ie \\\\n(.$>2 \\&\\fR\\\\*[@joined]\\fP\n\
.el .ie \\\\n(.$ \\&\\fR\\\\$1\\fP\\\\$2\n\
.el .ft R\n\
..\n\
.de i\n\
.if \\\\n(.$>2 \\{\\\n\
\\*[@join].\\}\n\
.ie \\\\n(.$>2 \\&\\fI\\\\*[@joined]\\fP\n\
.el .ie \\\\n(.$ \\&\\fI\\\\$1\\fP\\\\$2\n\
.el .ft I\n\
..\n\
.de b\n\
.if \\\\n(.$>2 \\{\\\n\
\\*[@join].\\}\n\
.ie \\\\n(.$>2 \\&\\fB\\\\*[@joined]\\fP\n\
.el .ie \\\\n(.$ \\&\\fB\\\\$1\\fP\\\\$2\n\
.el .ft B\n\
..\n\
.de rb\n\
.if \\\\n(.$>2 \\{\\\n\
\\*[@join].\\}\n\
.ie \\\\n(.$>2 \\&\\fB\\\\*[@joined]\\fP\n\
.el .ie \\\\n(.$ \\&\\fB\\\\$1\\fP\\\\$2\n\
.el .ft B\n\
..\n\
.de bi\n\
.if \\\\n(.$>2 \\{\\\n\
\\*[@join].\\}\n\
.ie \\\\n(.$>2 \\&\\fI\\\\*[@joined]\\fP\n\
.el .ie \\\\n(.$ \\&\\fI\\\\$1\\fP\\\\$2\n\
.el .ft I\n\
..\n\
.de u\n\
.if \\\\n(.$>2 \\{\\\n\
\\*[@join].\\}\n\
.ie \\\\n(.$>2 \\&\\fI\\\\*[@joined]\\fP\n\
.el .if \\\\n(.$ \\&\\fI\\\\$1\\fP\\\\$2\n\
..\n\
.de q\n\
.if \\\\n(.$>2 \\{\\\n\
\\*[@join].\\}\n\
.ie \\\\n(.$>2 \\&\\\\*(lq\\\\*[@joined]\\\\*(rq\n\
.el .if \\\\n(.$ \\&\\\\*(lq\\\\$1\\\\*(rq\\\\$2\n\
..\n\
.de bx\n\
.if \\\\n(.$>2 \\{\\\n\
\\*[@join].\\}\n\
.ie \\\\n(.$>2 \\&[\\\\*[@joined]]\n\
.el .if \\\\n(.$ \\&[\\\\$1]\\\\$2\n\
..\n\
.de sm\n\
.if \\\\n(.$>2 \\{\\\n\
\\*[@join].\\}\n\
.ie \\\\n(.$>2 \\&\\\\*[@joined]\n\
.el .if \\\\n(.$ \\&\\\\$1\\\\$2\n\
..\n\
.\\\" ---- references, as refer hands them on: fields [A, [T .. , of which @field adds each that is\n\
.\\\" there, a comma or a stop before it, and what closes it after the next one\n\
.ds [. \" [\n\
.ds .] ]\n\
.ds <. .\n\
.ds <, ,\n\
.ds >.\n\
.ds >,\n\
.de ]-\n\
.nr [A 0\n\
.nr [O 0\n\
.nr [P 0\n\
.nr [T 0\n\
..\n\
.de @field\n\
.ds @text \"\\\\*([\\\\$1\n\
.if !\\a\\\\*[@text]\\a\\a \\{\\\n\
.if !\\a\\\\*[@reference]\\a\\a \\{\\\n\
.if !\\\\n[@stopped] .as @reference \"\\\\$2\n\
.as @reference \"\\\\*[@closing]\n\
.if !'\\\\$1'N' .as @reference \" \\&\n\
.\\}\n\
.as @reference \"\\\\$3\\\\*[@text]\\\\$4\n\
.ds @closing \"\\\\$5\n\
.nr @stopped 0\n\
.if \\\\n(.$>5 .nr @stopped \\\\$6\n\
.rm [\\\\$1\n\
.\\}\n\
..\n\
.\\\" the end of one, and its kind: 0 and 2 have the title in italics\n\
.de ][\n\
.ds @reference\n\
.ds @closing\n\
.nr @stopped 0\n\
.@field Q ,\n\
.@field A , \"\" \"\" \"\" \\\\n([A\n\
.ie (0\\\\$1=0):(0\\\\$1=2) .@field T , \"\\fI\" \"\" \"\\fR\" \\\\n([T\n\
.el .@field T , \"\\\\*(lq\" \"\" \"\\\\*(rq\" \\\\n([T\n\
.@field J , \"\\fI\" \"\" \"\\fR\"\n\
.@field B \"\" \"in \\fI\" \"\" \"\\fR\"\n\
.@field E , \"ed. \"\n\
.@field R ,\n\
.@field G \"\" \"(\" \")\"\n\
.@field S ,\n\
.@field V \"\" \"\\fB\" \"\\fR\"\n\
.ie 0\\\\$1=4 .@field N \"\" \"\\ \"\n\
.el .@field N \"\" \"(\" \")\"\n\
.ie \\\\n([P .@field P , \"pp.\\ \"\n\
.el .@field P , \"p.\\ \"\n\
.@field I ,\n\
.@field C ,\n\
.@field D \"\" \"(\" \")\"\n\
.@field O . \"\" \"\" \"\" \\\\n([O\n\
.if !\\\\n[@stopped] .as @reference .\n\
.as @reference \"\\\\*[@closing]\n\
.ie \\\\n[@listing] .@list-reference\n\
.el .@note-reference\n\
.ds [F\n\
..\n\
.de []\n\
.][ \\\\$1\n\
..\n\
.de @list-reference\n\
.ie \\a\\\\*([F\\a\\a .ip \\ \\&\n\
.el .ip \"\\\\*([F.\"\n\
\\&\\\\*[@reference]\n\
..\n\
.de @note-reference\n\
.(f _\n\
\\\\*([F.\\ \\ \\\\*[@reference]\n\
.)f\n\
..\n\
.\\\" around those that stand together\n\
.de ]<\n\
.nr @listing 1\n\
.uh References\n\
.lp\n\
..\n\
.de ]>\n\
.nr @listing 0\n\
.br\n\
.in \\\\n($iu\n\
..\n\
.\\\" ---- strings\n\
.ds * [\\\\n($f]\\\\h'\\\\n+[@note-marks]u*0u'\n\
.ds # [\\\\n($d]\\\\h'\\\\n+[@text-marks]u*0u'\n\
.ds { \\&\n\
.ds } \\&\n\
.ds [ \\&\n\
.ds ] \\&\n\
.ds < \\&\n\
.ds > \\&\n\
.ds - \\(em\n\
.ds lq \\(dq\n\
.ds rq \\(dq\n\
.ds '\n\
.ds `\n\
.ds :\n\
.ds ^\n\
.ds ~\n\
.ds ,\n\
.ds v\n\
.ds o\n\
.ds qe there exists\n\
.ds qa for all\n\
.ds dw\n\
.ds mo\n\
.ds td\n\
.\\\" ---- the end: what is open is closed, what waits gets a page\n\
.de @end\n\
.br\n\
.@close\n\
.@settle\n\
.@last\n\
..\n\
.de @close\n\
.if !'\\\\n(.z'' \\{\\\n\
.ie '\\\\n(.z'@equation' .EN\n\
.el .ie '\\\\n(.z'@block' .)c\n\
.el .ie '\\\\n(.z'@head-text' .TH\n\
.el .ie '\\\\n(.z'@entry' .)x\n\
.el .ie \\\\n[@keep] .)b\n\
.el .di\n\
.@close\n\
.\\}\n\
..\n\
.de @last\n\
.nr $c \\\\n($m\n\
.if \\\\n(nl \\{\\\n\
.rs\n\
.@bp\n\
.\\}\n\
.if \\\\n[@later]+\\\\n[@kept]-\\\\n[@shown] .@last-page\n\
..\n\
.de @last-page\n\
.if !\\\\n(nl .@open\n\
.@last\n\
..\n\
.\\\" ---- the beginning\n\
.nr @font 1\n\
.nr @before-font 1\n\
.nr @note-marks 0 1\n\
.nr @text-marks 0 1\n\
.nr $f 1 1\n\
.nr $d 1 1\n\
.nr $p 0 1\n\
.nr $m 1\n\
.nr $c 1\n\
.nr $s 4n\n\
.nr _M 1\n\
.nr ch 0 1\n\
.nr hm 4v\n\
.nr tm 7v\n\
.nr bm 6v\n\
.nr fm 3v\n\
.nr tf 3\n\
.nr tp 10\n\
.nr pp 10\n\
.nr pf 1\n\
.nr sf 3\n\
.nr sp 10\n\
.nr ff 1\n\
.nr fp 8\n\
.nr qp 0-1\n\
.nr bi 4n\n\
.nr pi 5n\n\
.nr qi 4n\n\
.nr ii 5n\n\
.nr ss 1v\n\
.nr ps 1v\n\
.nr bs 1v\n\
.nr qs 1v\n\
.nr zs 1v\n\
.nr es 1v\n\
.nr xs 0.2v\n\
.nr fs 0.2v\n\
.nr xu 0.5i\n\
.nr fi 0.3i\n\
.nr $v 120\n\
.nr $V 120\n\
.if \\nL .ll \\nLn\n\
.if !\\nL .ll 6i\n\
.rn @set-offset po\n\
.nr @offset \\n(.o\n\
.re\n\
.wh 0 @header\n\
.em @end\n\
.\\\" end of tmac.e\n";
