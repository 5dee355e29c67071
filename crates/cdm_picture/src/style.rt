//! How a picture is painted.

/// The style of a picture, and the patterns by which its areas can be told apart without colour.
pub const STYLE: &str = "\
<style type='text/css'>
text{font-family:Helvetica,Arial,'DejaVu Sans',sans-serif;font-size:11px;fill:#222}
.pg{fill:#fff}
.bd{fill:#fafafa;stroke:#bbb;stroke-width:1}
.cs{fill:#f0f2f4}
.cp{fill:#d5dbe1}
.ct{fill:#7d93a8}
.ov{fill:#c1121f}
.cl{fill:url(#cl)}
.hr{fill:#aab2ba}
.hf{fill:#dde1e5}
.nw{fill:#c1121f}
.ri{fill:url(#ri)}
.rn{fill:url(#rn)}
.rc{fill:url(#rc)}
.rx{fill:url(#rx)}
.rs{fill:url(#rs)}
.rr{fill:url(#rr)}
.fo{fill:url(#fo)}
.fa{fill:url(#fa)}
rect.to{fill:#111}
rect.mv{fill:#c1121f}
text.mv{font-weight:bold;fill:#c1121f}
.hd{font-size:16px;font-weight:bold}
.rw{font-size:18px;font-weight:bold}
.md{text-anchor:middle}
.lt{text-anchor:middle;font-weight:bold}
.nt{text-anchor:middle;font-weight:bold;fill:#c1121f}
</style>
<defs>
<pattern id='cl' width='8' height='8' patternUnits='userSpaceOnUse'><path d='M-2,2L2,-2M0,8L8,0M6,10L10,6' stroke='#555' stroke-width='1' stroke-opacity='0.4'/></pattern>
<pattern id='ri' width='5' height='5' patternUnits='userSpaceOnUse'><rect width='5' height='5' fill='#bfe3f8'/><circle cx='2.5' cy='2.5' r='1.2' fill='#1f78b4'/></pattern>
<pattern id='rn' width='4' height='4' patternUnits='userSpaceOnUse'><rect width='4' height='4' fill='#e0e0e0'/><path d='M1,0L1,4' stroke='#666' stroke-width='1'/></pattern>
<pattern id='rc' width='6' height='6' patternUnits='userSpaceOnUse'><rect width='6' height='6' fill='#eccfe4'/><path d='M-1,1L1,-1M0,6L6,0M5,7L7,5' stroke='#9b3f88' stroke-width='1.2'/></pattern>
<pattern id='rx' width='6' height='6' patternUnits='userSpaceOnUse'><rect width='6' height='6' fill='#f6c9b5'/><path d='M0,0L6,6M0,6L6,0' stroke='#b5441b' stroke-width='1'/></pattern>
<pattern id='rs' width='4' height='4' patternUnits='userSpaceOnUse'><rect width='4' height='4' fill='#c4e8d8'/><path d='M0,1L4,1' stroke='#00805a' stroke-width='1.2'/></pattern>
<pattern id='rr' width='6' height='6' patternUnits='userSpaceOnUse'><rect width='6' height='6' fill='#fbe3a6'/><path d='M-1,5L1,7M0,0L6,6M5,-1L7,1' stroke='#c98a00' stroke-width='1.2'/></pattern>
<pattern id='fo' width='8' height='8' patternUnits='userSpaceOnUse'><rect width='8' height='8' fill='#2f6fb3'/></pattern>
<pattern id='fa' width='4' height='4' patternUnits='userSpaceOnUse'><rect width='4' height='4' fill='#fff'/><path d='M0,0L4,0M0,2L4,2' stroke='#333' stroke-width='1'/></pattern>
</defs>
";
