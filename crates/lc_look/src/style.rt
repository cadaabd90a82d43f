//! What is in each picture.

/// The colours, and the legend.
pub(crate) const STYLE: &str = "<style>
text{font:13px sans-serif}
.free{fill:#ececec} .open{fill:#b5b5b5} .stable{fill:#d3e4f1} .edge{fill:#fff}
.none{fill:#fff;stroke:#aaa} .first{fill:#9ecae1;stroke:#6b8fa8} .second{fill:#fdd0a2;stroke:#b08a60}
.behind{stroke:#d00000;stroke-width:3}
.s1{fill:#4e79a7} .s2{fill:#f28e2b} .s3{fill:#59a14f} .s4{fill:#b07aa1} .s5{fill:#76b7b2} .s6{fill:#edc948}
.s7{fill:#9c755f} .s8{fill:#ff9da7} .s9{fill:#1f77b4} .s10{fill:#bcbd22} .s11{fill:#17becf} .s12{fill:#8c564b}
.s13{fill:#e377c2} .s14{fill:#7f7f7f} .s15{fill:#2ca02c} .s16{fill:#9467bd}
</style>
<rect width='1000' height='100%' fill='#fff'/>
<g transform='translate(20 14)'>
<rect class='stable' width='26' height='14'/><rect class='s1' width='26' height='7'/>
<text x='34' y='12'>record, by the segments that it locks</text>
<rect class='open' x='300' width='26' height='14'/><text x='334' y='12'>written, in no record</text>
<rect class='free' x='520' width='26' height='14'/><text x='554' y='12'>free</text>
</g>
<g transform='translate(20 42)'>
<rect class='first' width='13' height='13'/><text x='22' y='12'>page in its first slot</text>
<rect class='second' x='190' width='13' height='13'/><text x='212' y='12'>in its second slot</text>
<rect class='none' x='360' width='13' height='13'/><text x='382' y='12'>never written</text>
<rect class='none behind' x='520' width='13' height='13'/><text x='542' y='12'>behind its records: a recovery writes it</text>
</g>
";
