// The style of a report.

/// The style: light and dark, for screens of all widths and for paper.
pub const STYLE: &str =
    ":root{color-scheme:light dark;--bg:#fcfcfa;--fg:#1c2330;--mut:#566173;--line:#d9dce1;--soft:#f1f2f0;\n\
     --link:#0b5394;\n\
     --ok:#17693a;--okbg:#e4f2e8;--m:#3f74b5;--n:#c2611f;--nt:#a34a10;--b:#7b55ad;--d:#4b8a4f;\n\
     --x:#858d9a;--z:#e6e8eb;--s:#8d6a1c;--w:#8390a0;\n\
     --f0:#dbe6f3;--f1:#e9e2f4;--f2:#e0efe3;--f3:#f6e9da;--loop:#f3d9c4;--hot:#fff3d6}\n\
     @media(prefers-color-scheme:dark){:root{--bg:#14171c;--fg:#e3e6eb;--mut:#a3acba;--line:#353b45;\n\
     --soft:#1d2128;--link:#8ab8f0;\n\
     --ok:#7fd19b;--okbg:#1b3325;--m:#6f9fdc;--n:#e08a4a;--nt:#e8a06a;--b:#a988d8;--d:#76b47a;\n\
     --x:#6f7785;--z:#2a2f37;--s:#cfa64b;--w:#5f6a79;\n\
     --f0:#24384f;--f1:#382f4d;--f2:#243c2b;--f3:#46351f;--loop:#573820;--hot:#3a3116}}\n\
     *{box-sizing:border-box}html{scroll-padding-top:2.6rem}\n\
     body{margin:0;background:var(--bg);color:var(--fg);font:16px/1.5 system-ui,-apple-system,\"Segoe UI\",\n\
     Roboto,\"DejaVu Sans\",sans-serif}\n\
     a{color:var(--link);text-decoration:none}a:hover{text-decoration:underline}\n\
     :focus-visible{outline:2px solid var(--link);outline-offset:2px}\n\
     .skip{position:absolute;left:-99em}.skip:focus{left:.5rem;top:.5rem;background:var(--bg);\n\
     padding:.5rem;z-index:9}\n\
     code,pre,.c,.l td,.l th[scope=row]{font-family:ui-monospace,SFMono-Regular,Menlo,Consolas,\n\
     \"DejaVu Sans Mono\",monospace;font-size:.875em}\n\
     main{max-width:70rem;margin:0 auto;padding:1rem 1.25rem 4rem}\n\
     h1{font-size:1.6rem;line-height:1.25;margin:.6rem 0 .3rem;overflow-wrap:anywhere}\n\
     h2{font-size:1.25rem;margin:2.6rem 0 .6rem;padding-top:.7rem;border-top:1px solid var(--line)}\n\
     h3{font-size:1rem;margin:1.4rem 0 .4rem}p{margin:.4rem 0 .8rem;max-width:46rem}\n\
     .mut{color:var(--mut)}\n\
     nav{padding:.8rem 1.25rem;border-bottom:1px solid var(--line);font-size:.9rem}nav ol,\n\
     nav ul{margin:0;padding:0;list-style:none}\n\
     nav a{display:inline-block;padding:.12rem 0}nav summary{cursor:pointer;font-weight:600}\n\
     nav .pr{font-size:.85rem;margin:.2rem 0 0 .8rem}nav .pr .c{color:var(--mut)}\n\
     @media(min-width:75rem){body{display:grid;grid-template-columns:15rem minmax(0,1fr)}\n\
     nav{position:sticky;top:0;height:100vh;overflow:auto;border:0;border-right:1px solid var(--line)}\n\
     main{width:100%}}\n\
     .v{display:inline-block;background:var(--okbg);color:var(--ok);font-weight:650;padding:.15rem .7rem;\n\
     border-radius:1rem}\n\
     dl{display:grid;grid-template-columns:max-content 1fr;gap:.25rem 1.2rem;margin:.8rem 0}\n\
     dt{color:var(--mut)}dd{margin:0;overflow-wrap:anywhere}\n\
     .bars{display:grid;gap:1rem;margin:1.2rem 0;max-width:46rem}.bar p{margin:0 0 .2rem;display:flex;\n\
     justify-content:space-between;gap:1rem;flex-wrap:wrap}\n\
     .bar b{font-variant-numeric:tabular-nums}.bar svg{display:block;width:100%;height:1.1rem;\n\
     border-radius:3px}\n\
     table{border-collapse:separate;border-spacing:0;width:100%;font-size:.92rem;\n\
     font-variant-numeric:tabular-nums}\n\
     caption{text-align:left;color:var(--mut);padding:.2rem 0 .5rem}\n\
     th,td{text-align:left;vertical-align:top;padding:.22rem .55rem;border-bottom:1px solid var(--line)}\n\
     th{font-weight:600}thead th{position:sticky;top:0;background:var(--bg);z-index:2;\n\
     border-bottom:2px solid var(--line);font-size:.85rem}\n\
     tbody th{font-weight:400}.r{text-align:right}td.r,.nw{white-space:nowrap}\n\
     .fit{width:auto;min-width:min(100%,34rem)}.scroll{overflow-x:auto}\n\
     .sw::before{content:\"\";display:inline-block;width:.85em;height:.85em;border-radius:2px;\n\
     margin-right:.35em;vertical-align:-.05em;background:var(--k,var(--x))}\n\
     .m{--k:var(--m)}.n{--k:var(--n)}.b{--k:var(--b)}.d{--k:var(--d)}.x{--k:var(--x)}.z{--k:var(--z)}\n\
     .s{--k:var(--s)}.w{--k:var(--w)}\n\
     svg .m,svg .n,svg .b,svg .d,svg .x,svg .z,svg .s,svg .w{fill:var(--k)}svg .k{fill:currentColor}\n\
     .key{display:flex;flex-wrap:wrap;gap:.2rem 1.1rem;list-style:none;margin:.3rem 0 .7rem;padding:0;\n\
     font-size:.88rem}\n\
     .map{overflow-x:auto;margin:.4rem 0 1rem}.map>div{min-width:36rem;max-width:64rem}\n\
     .line{display:flex;height:9px}\n\
     .line>*{flex:0 0 auto;height:8px;overflow:hidden;white-space:nowrap;text-indent:200%;\n\
     background:var(--k)}\n\
     .line{padding-left:3.2rem;position:relative}\n\
     .line .at{position:absolute;left:0;height:auto;overflow:visible;text-indent:0;background:none;\n\
     color:var(--mut);font:.75rem/1 ui-monospace,\"DejaVu Sans Mono\",monospace}\n\
     .line [title]{box-shadow:inset -1px 0 var(--bg)}.line a:hover,\n\
     .line a:focus{outline:1.5px solid var(--fg);z-index:1}\n\
     .flame{overflow-x:auto;margin:.6rem 0}.flame>ul{min-width:36rem}.flame ul{display:flex;\n\
     list-style:none;margin:0;padding:0;width:100%}\n\
     .flame li{flex:0 0 auto;min-width:0;overflow:hidden}.flame span{display:block;height:1.65rem;\n\
     line-height:1.6rem;padding:0 .35rem;margin:0 1px 1px 0;border-radius:2px;\n\
     overflow:hidden;white-space:nowrap;text-overflow:ellipsis;font-size:.8rem;background:var(--f0)}\n\
     .flame .f1>span{background:var(--f1)}.flame .f2>span{background:var(--f2)}\n\
     .flame .f3>span{background:var(--f3)}.flame .lo>span{background:var(--loop);\n\
     border-bottom:2px dashed var(--n)}\n\
     .share{min-width:6rem}.share svg{display:inline-block;width:6rem;height:.7rem;margin-left:.6rem;\n\
     vertical-align:-.05em}\n\
     .tree,.tree ul{list-style:none;margin:0;padding:0}.tree ul{margin-left:.55rem;padding-left:.9rem;\n\
     border-left:1px solid var(--line)}.tree li{padding:.08rem 0}\n\
     .tree .nums{color:var(--mut);font-size:.88rem;font-variant-numeric:tabular-nums}\n\
     .deep>span>a{font-weight:700}.tag{font-size:.75rem;border:1px solid currentColor;\n\
     border-radius:.7rem;padding:0 .45rem;color:var(--s);white-space:nowrap}\n\
     .walk{margin:.2rem 0 1rem;font-size:.92rem}details>summary{cursor:pointer}\n\
     details.box{margin:.3rem 0}\n\
     .l{font-size:.9rem}.l td,.l th[scope=row]{padding:.06rem .5rem;border-bottom:0;line-height:1.45}\n\
     .l td{overflow-wrap:anywhere}.l .i,.l .y,.l th[scope=row]{white-space:nowrap;overflow-wrap:normal}\n\
     .l .p+tr,.l .lb+tr{scroll-margin-top:4.5rem}\n\
     .l .y,.l .k,.l .g{color:var(--mut)}.l tr:target>*{background:var(--hot)}\n\
     .l tbody tr:hover>*{background:var(--soft)}\n\
     .l .p th{background:var(--soft);padding:.5rem .55rem;border-top:1.4rem solid var(--bg);\n\
     font-size:.92rem;font-weight:400;line-height:1.4}.l .p b{font-size:1rem}\n\
     .l .lb th{font-family:ui-monospace,\"DejaVu Sans Mono\",monospace;font-size:.875em;\n\
     padding:.45rem .5rem 0;border:0;font-weight:650}\n\
     .l .g td,.l .g th{padding:.35rem .5rem}.l .in th{color:var(--mut);font-size:.82rem;\n\
     padding:.5rem .5rem .1rem;border:0;font-weight:400}\n\
     .l th[scope=row] a{color:var(--mut)}.l details{display:inline-block;vertical-align:top}\n\
     .l summary{color:var(--link)}.l .g details{display:block}\n\
     .l pre{margin:.2rem 0;white-space:pre-wrap;overflow-wrap:anywhere}.cm{color:var(--mut)}\n\
     .l .h{color:var(--nt)}\n\
     .mean li{margin:.35rem 0;max-width:46rem}\n\
     @media(max-width:46rem){.share svg{display:none}.share{min-width:0}body{font-size:15px}\n\
     main{padding:.5rem .8rem 3rem}nav{padding:.6rem .8rem}.hide{display:none}th,td{padding:.2rem .3rem}\n\
     .l td,.l th[scope=row]{padding:.06rem .25rem;font-size:.78rem}\n\
     dl{grid-template-columns:1fr;gap:0}dd{margin-bottom:.4rem}.l .i{white-space:normal}}\n\
     @media(max-width:23rem){.tiny{display:none}.fit{font-size:.85rem}}\n\
     @media print{nav,.skip{display:none}body{display:block;font-size:9.5pt;background:#fff;color:#000}\n\
     main{max-width:none;padding:0}thead th{position:static}h2{break-after:avoid}tr{break-inside:avoid}\n\
     h2,h3,caption,summary{break-after:avoid}table{font-size:8pt}.l{font-size:7.5pt}th,\n\
     td{padding:.12rem .4rem}.l .p th{border-top-width:.7rem;padding:.2rem .5rem}\n\
     .map>div,.flame>ul{min-width:0}*{print-color-adjust:exact;-webkit-print-color-adjust:exact}\n\
     details::details-content{content-visibility:visible;block-size:auto}}\n";
